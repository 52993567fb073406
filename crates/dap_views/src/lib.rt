//! Requests of the leader walked as slices: the bytes of an InitReq are checked once, and then each report's parts are
//! handed out as slices of the message, in order and without memory. The layers above view a request with `view_request`
//! and walk it with `RequestView::next`; contracts see a view as the message, its job and name, and the parts that are
//! still to come.
#![tactic(auto)]

mod part;
mod read;
mod request;
mod view;

pub use part::PartView;
pub use request::RequestView;
pub use view::view_request;

#[cfg(test)]
mod tests;
