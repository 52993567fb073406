//! Whole runs over the devices in memory. What a script prints, and the statuses, were computed by an independent program.

mod faults;
mod files;
mod scripts;

use super::*;
use dap_outside::{MemFiles, MemSink, MemSource};
use std::alloc::Global;
use std::process::Abort;
use std::test::Fail;

const THREE_REPORTS: &str = "task v count 3 3600
measure v 00000000000000000000000000000001 10 1 00000000000000000000000000000001
measure v 00000000000000000000000000000002 20 0 00000000000000000000000000000002
measure v 00000000000000000000000000000003 3599 1 00000000000000000000000000000003
collect v 0
";

/// A task file with the count task `v`, whose keys are rising bytes.
const ONE_TASK: &str = "[[task]]
name = \"v\"
kind = \"count\"
min = 3
precision = 3600
verify = \"000102030405060708090a0b0c0d0e0f\"
leader = \"101112131415161718191a1b1c1d1e1f202122232425262728292a2b2c2d2e2f\"
helper = \"303132333435363738393a3b3c3d3e3f404142434445464748494a4b4c4d4e4f\"
";

/// A task line for each of these numbers.
fn task_lines(alloc: Global, from: u32, to: u32) -> Result<String, Fail> {
    let mut lines = String::new(alloc);
    for number in from..to {
        let line = format!(in alloc; "task t{number} count 1 1\n")?;
        lines.push_str(line.as_str())?;
    }
    Ok(lines)
}

/// Words as they are handed in.
fn given_words(alloc: Global, words: &[&str]) -> Result<Vec<String>, Fail> {
    let mut given = Vec::new(alloc);
    for word in words {
        given.push(String::from_str(alloc, word)?)?;
    }
    Ok(given)
}

/// Files in memory that never fail.
fn given_files(alloc: Global, files: &[(&str, &str)]) -> Result<MemFiles, Fail> {
    let mut given = Vec::new(alloc);
    for (name, text) in files {
        given.push((
            String::from_str(alloc, name)?,
            Vec::from_slice(alloc, text.as_bytes())?,
        ))?;
    }
    Ok(MemFiles::new(given, Vec::new(alloc)))
}

/// Ends the process unless the call with these words, over these files and this script, gives the status of this number
/// and this text, and prints this.
fn check_call(
    rt: &impl Abort,
    alloc: Global,
    words: &[&str],
    files: &[(&str, &str)],
    script: &str,
    status: (u8, &str),
    printed: &str,
) -> Result<(), Fail> {
    let given = given_words(alloc, words)?;
    let mut source = MemSource::new(Vec::from_slice(alloc, script.as_bytes())?, Vec::new(alloc));
    let mut files = given_files(alloc, files)?;
    let mut sink = MemSink::new(alloc, Vec::new(alloc));
    let found = dap_alone(alloc, &given, &mut source, &mut files, &mut sink);
    assert_eq!(rt;
        found.to_string(alloc)?.as_str(),
        status.1,
        "after {script}"
    );
    assert_eq!(rt; found.number(), status.0, "after {script}");
    assert_eq!(rt; sink.bytes(), printed.as_bytes(), "after {script}");
    Ok(())
}
