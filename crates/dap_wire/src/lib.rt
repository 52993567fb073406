//! What the two servers' parts send through: links whose fates lose, repeat or hold back messages, one
//! ring each way, and rings of uploads without fates. The layers above use that an end is always the end
//! of its ring, that what it receives is the beginning of what the other end sent, and that its fates
//! carried what it hands on.
#![tactic(auto)]

mod end;
mod fated;
mod laws;
mod meet;
mod places;
mod recv;
mod sends;
mod start;
mod upload;

pub use end::{LinkEnd, link};
pub use laws::{ends_stay_linked, received_is_the_beginning_of_sent};
pub use meet::Meet;
pub use places::{LINK_PLACES, UPLOAD_PLACES};
pub use recv::{Full, Recv};
pub use upload::{FrontEnd, FullUpload, LaneEnd, Upload, plain};

#[cfg(test)]
mod tests;
