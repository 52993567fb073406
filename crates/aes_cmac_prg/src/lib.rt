//! CMAC with AES-128 (NIST SP 800-38B, RFC 4493), and the stream that is drawn from it: `cmac` tags
//! a text under a `Key`, `Prg::new` begins the stream of a seed and an info text, and
//! `Prg::next_bytes` and `Prg::draw` take bytes and field elements from it. A contract sees a `Prg`
//! as the key of its stream and the number of bytes taken.
#![tactic(auto)]

mod fault;
mod prg;
mod reading;
mod tag;
#[cfg(test)]
mod tests;

pub use fault::DrawFault;
pub use prg::Prg;
pub use reading::pieces_are_one_reading;
pub use tag::cmac;
