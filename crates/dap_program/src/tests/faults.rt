//! Devices that fail, give little or give too much.

use super::{ONE_TASK, THREE_REPORTS, check_call, given_files, given_words};
use crate::program::dap_alone;
use crate::status::Status;
use crate::tell::tell;
use dap_outside::{Failed, MemFiles, MemSink, MemSource, Source};
use std::test::Fail;

#[test]
fn faults_of_the_devices_are_answered(rt: HostRuntime) -> Result<(), Fail> {
    let alloc = rt.alloc();
    let words = given_words(alloc, &["run"])?;
    let cases = [
        // The first read; the read at the end; the first write.
        (Some(1), None, 4),
        (Some(2), None, 4),
        (None, Some(1), 5),
        (Some(3), Some(2), 0),
    ];
    for (read, write, status) in &cases {
        let reads: Vec<u64> = read.iter().copied().collect(alloc)?;
        let writes: Vec<u64> = write.iter().copied().collect(alloc)?;
        let mut source = MemSource::new(Vec::from_slice(alloc, THREE_REPORTS.as_bytes())?, reads);
        let mut sink = MemSink::new(alloc, writes);
        let mut files = given_files(alloc, &[])?;
        let found = dap_alone(alloc, &words, &mut source, &mut files, &mut sink);
        assert_eq!(rt; found.number(), *status);
        assert_eq!(rt; sink.bytes().is_empty(), *status != 0);
    }
    Ok(())
}

/// A source that gives one byte at a time.
#[derive(Drop)]
struct Trickle {
    inner: MemSource,
}

impl Source for Trickle {
    ghost use Rattle.std.specs.Prelude.{Some};
    ghost use Rattle.dap_outside.specs.Devices.{bytes_left};
    ghost use Rattle.dap_outside.specs.Plan.{failed_calls};

    ghost left = { λ s. Some (bytes_left s.inner) };

    ghost faults = { λ s. failed_calls s.inner.plan };

    fn read(&mut self, buf: &mut [u8]) -> Result<usize, Failed> {
        let count = buf.len().min(1);
        let (first, _) = buf.split_at_mut(count);
        self.inner.read(first)
    }
}

#[test]
fn a_script_may_come_byte_by_byte(rt: HostRuntime) -> Result<(), Fail> {
    let alloc = rt.alloc();
    let mut source = Trickle {
        inner: MemSource::new(
            Vec::from_slice(alloc, THREE_REPORTS.as_bytes())?,
            Vec::new(alloc),
        ),
    };
    let mut sink = MemSink::new(alloc, Vec::new(alloc));
    let mut files = given_files(alloc, &[])?;
    let words = given_words(alloc, &["run"])?;
    let status = dap_alone(alloc, &words, &mut source, &mut files, &mut sink);
    assert_eq!(rt; status.number(), 0);
    assert_eq!(rt;
        sink.bytes(),
        b"collected v 0 reports 3 rejected 0 count 2\n".as_slice()
    );
    Ok(())
}

/// A source without an end.
#[derive(Drop)]
struct Endless;

impl Source for Endless {
    ghost use Rattle.std.specs.Prelude.{None};

    ghost left = { λ _. None };

    ghost faults = { λ _. 0 };

    fn read(&mut self, buf: &mut [u8]) -> Result<usize, Failed> {
        buf.fill(b'\n');
        Ok(buf.len())
    }
}

#[test]
fn a_script_that_is_too_long_is_refused_unread(rt: HostRuntime) -> Result<(), Fail> {
    let alloc = rt.alloc();
    let mut sink = MemSink::new(alloc, Vec::new(alloc));
    let mut files = given_files(alloc, &[])?;
    let words = given_words(alloc, &["run"])?;
    let status = dap_alone(alloc, &words, &mut Endless, &mut files, &mut sink);
    assert_eq!(rt; status.to_string(alloc)?.as_str(), "limit 5 at line 0");
    assert!(rt; sink.bytes().is_empty());
    Ok(())
}

#[test]
fn faults_of_files_and_sink_stop_a_check(rt: HostRuntime) -> Result<(), Fail> {
    let alloc = rt.alloc();
    let words = given_words(alloc, &["check", "tasks"])?;
    let cases = [
        (Some(1), None, 4),
        (None, Some(1), 5),
        (Some(2), Some(2), 0),
    ];
    for (read, write, status) in &cases {
        let reads: Vec<u64> = read.iter().copied().collect(alloc)?;
        let writes: Vec<u64> = write.iter().copied().collect(alloc)?;
        let mut held = Vec::new(alloc);
        held.push((
            String::from_str(alloc, "tasks")?,
            Vec::from_slice(alloc, ONE_TASK.as_bytes())?,
        ))?;
        let mut files = MemFiles::new(held, reads);
        let mut source = MemSource::new(Vec::new(alloc), Vec::new(alloc));
        let mut sink = MemSink::new(alloc, writes);
        let found = dap_alone(alloc, &words, &mut source, &mut files, &mut sink);
        assert_eq!(rt; found.number(), *status);
        assert_eq!(rt; sink.bytes().is_empty(), *status != 0);
    }
    Ok(())
}

#[test]
fn scripts_are_limited_in_lines_and_in_bytes(rt: HostRuntime) -> Result<(), Fail> {
    let alloc = rt.alloc();
    // So many of this byte: blank lines, and a comment.
    let cases = [
        (b'\n', 1_000_000, "done"),
        (b'\n', 1_000_001, "limit 4 at line 1000001"),
        (b'#', 67_108_864, "done"),
        (b'#', 67_108_865, "limit 5 at line 0"),
    ];
    for (byte, count, text) in &cases {
        let bytes = vec![in alloc; *byte; *count]?;
        let mut source = MemSource::new(bytes, Vec::new(alloc));
        let mut files = given_files(alloc, &[])?;
        let mut sink = MemSink::new(alloc, Vec::new(alloc));
        let words = given_words(alloc, &["run"])?;
        let status = dap_alone(alloc, &words, &mut source, &mut files, &mut sink);
        assert_eq!(rt; status.to_string(alloc)?.as_str(), *text);
        assert!(rt; sink.bytes().is_empty());
    }
    Ok(())
}

#[test]
fn the_report_after_the_limit_is_named(rt: HostRuntime) -> Result<(), Fail> {
    let alloc = rt.alloc();
    let report =
        "measure v 00000000000000000000000000000001 0 1 00000000000000000000000000000001\n";
    let mut script = String::from_str(alloc, "task v count 1 1\ncollect v 0\n")?;
    for _ in 0..50_000u32 {
        script.push_str(report)?;
    }
    let small = "small v 0 reports 0\n";
    check_call(
        &rt,
        alloc,
        &["run"],
        &[],
        script.as_str(),
        (0, "done"),
        small,
    )?;
    script.push_str("#\n")?;
    script.push_str(report)?;
    let status = (11, "limit 2 at line 50004");
    check_call(&rt, alloc, &["run"], &[], script.as_str(), status, small)
}

#[test]
fn an_end_is_told_in_a_line(rt: HostRuntime) -> Result<(), Fail> {
    let alloc = rt.alloc();
    let cases = [
        (Status::Done, ""),
        (Status::Usage { word: 2 }, "dap: usage: word 2\n"),
        (Status::NoMemory, "dap: no memory\n"),
    ];
    for (status, line) in &cases {
        let mut errors = MemSink::new(alloc, Vec::new(alloc));
        assert!(rt; tell(alloc, status, &mut errors).is_ok());
        assert_eq!(rt; errors.bytes(), line.as_bytes());
    }
    Ok(())
}

#[test]
fn statuses_have_their_numbers_and_texts(rt: HostRuntime) -> Result<(), Fail> {
    let cases = [
        (Status::Done, 0, "done"),
        (Status::Usage { word: 2 }, 1, "usage: word 2"),
        (
            Status::ScriptRefused { line: 3 },
            3,
            "script refused: line 3",
        ),
        (Status::ReadFault, 4, "read fault"),
        (Status::WriteFault, 5, "write fault"),
        (Status::Limit { line: 9, limit: 3 }, 11, "limit 3 at line 9"),
        (Status::NoMemory, 12, "no memory"),
        (Status::NotYet { line: 7 }, 13, "not yet: line 7"),
    ];
    for (status, number, text) in &cases {
        assert_eq!(rt; status.number(), *number);
        assert_eq!(rt; status.to_string(rt.alloc())?.as_str(), *text);
    }
    Ok(())
}
