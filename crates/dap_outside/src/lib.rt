//! What the program meets from outside, as traits with a stated meaning: where bytes come from, files by their names and
//! where bytes go, each with a count of faults that never falls, and the fates of the messages of a link. The layers
//! above are written for every such device and use its meaning and its counts alone; the forms in memory fail, lose and
//! hold back as listed.
#![tactic(auto)]

mod fates;
mod files;
mod kept_fates;
mod list_fates;
mod plan;
mod sends;
mod sink;
mod source;

pub use fates::{Fate, Fates};
pub use files::{FileFault, Files, MAX_READ, MemFiles};
pub use kept_fates::KeptFates;
pub use list_fates::ListFates;
pub use sink::{MemSink, Sink, SinkFault};
pub use source::{Failed, MemSource, Source};

#[cfg(test)]
mod tests;
