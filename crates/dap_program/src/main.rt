//! The two aggregators of a private measurement service, leader and helper, run on a script.
//!
//! `main` makes the devices, calls `dap_alone`, lets `tell` print the status's text and ends with its number. The contract
//! of `dap_alone` says what is printed.
#![tactic(auto)]

mod check;
mod given;
mod help;
mod lines;
mod printing;
mod program;
mod run;
mod status;
mod sums;
mod tell;
mod transfer;
mod words;

use crate::program::dap_alone;
use crate::status::Status;
use crate::tell::tell;
use dap_files::{DirFiles, FileSink, FileSource};
use std::process::ExitCode;
use std::{env, io};

/// The words of the command line after the program's name. A word that isn't UTF-8 is no command.
fn arguments(rt: &HostRuntime) -> Result<Vec<String>, Status> {
    match env::args(rt) {
        Ok(args) => Ok(args.skip(1).collect(rt.alloc())?),
        Err(error) if error.kind() == io::ErrorKind::OutOfMemory => Err(Status::NoMemory),
        Err(_) => Err(Status::Usage { word: 1 }),
    }
}

fn answer(rt: &HostRuntime, words: &[String]) -> Status {
    let mut script = FileSource::new(rt.reader());
    let mut files = DirFiles::new(rt);
    let mut out = FileSink::new(io::writer(rt));
    dap_alone(rt.alloc(), words, &mut script, &mut files, &mut out)
}

fn main(rt: HostRuntime) -> ExitCode {
    let status = match arguments(&rt) {
        Ok(words) => answer(&rt, &words),
        Err(status) => status,
    };
    let _ = tell(rt.alloc(), &status, &mut FileSink::new(rt.stderr()));
    ExitCode::from(status.number())
}

#[cfg(test)]
mod tests;
