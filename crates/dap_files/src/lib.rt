//! The real things behind the program's devices: a reader as a source, a writer as a sink, and the files of the system,
//! each with a count of its errors. They are a few lines each and tell nothing of what a real file holds; the layer
//! above uses them as the traits of dap_outside.
#![tactic(auto)]

mod files;
mod sink;
mod source;

pub use files::DirFiles;
pub use sink::FileSink;
pub use source::FileSource;

#[cfg(test)]
mod tests;
