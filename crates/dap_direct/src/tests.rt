//! Whole scripts with the toy function, whose sums are those of a sum task. The first text is that of an independent
//! program, and so are the bytes of the report.

ghost use Rattle.std.specs.Prelude.{◌≤◌, length};

use super::*;
use dap_bytes::{Name, Span};
use dap_model::Limits;
use dap_script::{Line, read_script};
use dap_tasks::{Task, trial};
use std::alloc::Global;
use std::test::Fail;
use vdaf_api::{Kind, Toy};

/// Limits that no script here passes.
const WIDE: Limits = Limits {
    reports: 50_000,
    bytes: 268_435_456,
};

const SCRIPT: &str = "# two tasks, line by line
task s sum 16 2 10
now 5
measure s 00000000000000000000000000000001 1 255 00000000000000000000000000000001
measure s 00000000000000000000000000000001 1 255 00000000000000000000000000000001
measure s 00000000000000000000000000000001 2 255 00000000000000000000000000000001
collect s 0
measure t 00000000000000000000000000000001 9 7 ffffffffffffffffffffffffffffffff
measure s 00000000000000000000000000000002 9 7 ffffffffffffffffffffffffffffffff
measure s 00000000000000000000000000000003 10 1 00000000000000000000000000000003
measure s 00000000000000000000000000000004 306 1 00000000000000000000000000000004
collect s 0
measure s 00000000000000000000000000000005 3 1 00000000000000000000000000000005
collect s 10
collect s 11
collect u 0
collect t 0
task t sum 16 1 7

measure s 00000000000000000000000000000006 305 1 00000000000000000000000000000006
collect t 7
collect s 0
";

const TEXT: &str = "refused 6 conflict
small s 0 reports 1
refused 11 early
collected s 0 reports 2 rejected 0 sum 262
refused 13 collected
small s 10 reports 1
refused 15 start
refused 16 task
small t 0 reports 0
collected t 7 reports 1 rejected 0 sum 7
collected s 0 reports 2 rejected 0 sum 262
";

/// The report of the measurement 7 of the trial task `v`, with the identifier 0..01, the time 10 and the seed 00010203..
/// (88 bytes): as it is, with one bit of the helper's ciphertext changed, under the name `w`, and cut off.
const UPLOADS: &str = "task v sum 16 1 100
measure v 00000000000000000000000000000002 11 5 00000000000000000000000000000002
collect v 0
now 5
upload AXYAAAAAAAAAAAAAAAAAAAABAAAAAAAAAAoAAAAAAAAAAAAYNIOl0ntJyzZmzPdYQxB9a6EB0vAEtZIWAAAAGD26MM0epiBnrt13/g5FwhS/3EQF80b/ZQ==
task w sum 16 1 20
upload AXcAAAAAAAAAAAAAAAAAAAABAAAAAAAAAAoAAAAAAAAAAAAYNIOl0ntJyzZmzPdYQxB9a6EB0vAEtZIWAAAAGD26Mc0epiBnrt13/g5FwhS/3EQF80b/ZQ==
measure w 00000000000000000000000000000002 11 9 00000000000000000000000000000002
collect w 0
upload AXgAAAAAAAAAAAAAAAAAAAABAAAAAAAAAAoAAAAAAAAAAAAYNIOl0ntJyzZmzPdYQxB9a6EB0vAEtZIWAAAAGD26Mc0epiBnrt13/g5FwhS/3EQF80b/ZQ==
upload AXYAAAAAAAAAAAAAAAAAAAABAAAAAAAAAAoAAAAAAAAAAAAYNIOl0g==
upload BXY=
";

/// Two tasks, of which one expires, and batches of several buckets that share some.
const SPANS: &str = "task s sum 16 1 10
task w sum 16 1 10 expires 50
measure s 00000000000000000000000000000001 45 7 00000000000000000000000000000001
measure s 00000000000000000000000000000002 19 5 00000000000000000000000000000002
measure w 00000000000000000000000000000003 25 3 00000000000000000000000000000003
collect s 40 2
collect s 10 2
collect s 0 64
collect s 20
collect s 30
collect s 20 2
collect w 0 64
measure s 00000000000000000000000000000004 29 1 00000000000000000000000000000004
measure s 00000000000000000000000000000005 30 2 00000000000000000000000000000005
collect s 30 1
collect s 10 2
collect s 7 2
now 50
measure w 00000000000000000000000000000006 700 4 00000000000000000000000000000006
measure w 00000000000000000000000000000006 350 4 00000000000000000000000000000006
measure w 00000000000000000000000000000003 25 3 00000000000000000000000000000003
measure s 00000000000000000000000000000007 350 4 00000000000000000000000000000007
";

const SPANS_TEXT: &str = "collected s 40 2 reports 1 rejected 0 sum 7
collected s 10 2 reports 1 rejected 0 sum 5
refused 8 overlap 10 2
refused 9 overlap 10 2
small s 30 reports 0
refused 11 overlap 10 2
collected w 0 64 reports 1 rejected 0 sum 3
refused 13 collected
collected s 30 reports 1 rejected 0 sum 2
collected s 10 2 reports 1 rejected 0 sum 5
refused 17 start
refused 19 early
refused 20 expired
";

const UPLOADS_TEXT: &str = "collected v 0 reports 1 rejected 0 sum 5
refused 5 collected
collected w 0 reports 1 rejected 1 sum 9
refused 10 task
refused 11 form
refused 12 form
";

const KNOWN: &str = "task v sum 16 1 100
upload AXYAAAAAAAAAAAAAAAAAAAABAAAAAAAAAAoAAAAAAAAAAAAYNIOl0ntJyzZmzPdYQxB9a6EB0vAEtZIWAAAAGD26Mc0epiBnrt13/g5FwhS/3EQF80b/ZQ==
measure v 00000000000000000000000000000001 10 7 000102030405060708090a0b0c0d0e0f
upload AXYAAAAAAAAAAAAAAAAAAAABAAAAAAAAAAoAAAAAAAAAAAAYNIOl0ntJyzZmzPdYQxB9a6EB0vAEtZIWAAAAGD26MM0epiBnrt13/g5FwhS/3EQF80b/ZQ==
measure v 00000000000000000000000000000001 10 8 000102030405060708090a0b0c0d0e0f
collect v 0
";

const KNOWN_TEXT: &str = "refused 4 conflict
refused 5 conflict
collected v 0 reports 1 rejected 0 sum 7
";

const TAMPERED: &str = "task v sum 16 1 100
upload AXYAAAAAAAAAAAAAAAAAAAABAAAAAAAAAAoAAAAAAAAAAAAYNIOl0ntJyzZmzPdYQxB9a6EB0vAEtZIWAAAAGD26MM0epiBnrt13/g5FwhS/3EQF80b/ZQ==
measure v 00000000000000000000000000000002 11 5 00000000000000000000000000000002
collect v 0
";

const TAMPERED_TEXT: &str = "collected v 0 reports 1 rejected 1 sum 5
";

/// Each report here has 88 bytes. What is refused as `task` (line 2), `form` (line 4) and `value` (lines 5
/// and 13) isn't offered.
const OFFERS: &str = "task v sum 16 1 100
measure w 00000000000000000000000000000001 10 7 000102030405060708090a0b0c0d0e0f
now 5
upload AXYAAAAAAAAAAAAAAAAAAAABAAAAAAAAAAoAAAAAAAAAAAAYNIOl0g==
measure v 00000000000000000000000000000001 10 4294967296 000102030405060708090a0b0c0d0e0f
measure v 00000000000000000000000000000001 400 7 000102030405060708090a0b0c0d0e0f
restart leader
measure v 00000000000000000000000000000001 10 7 000102030405060708090a0b0c0d0e0f
collect v 0
measure w 00000000000000000000000000000002 10 7 000102030405060708090a0b0c0d0e0f
measure v 00000000000000000000000000000001 10 7 000102030405060708090a0b0c0d0e0f
collect v 0
measure v 00000000000000000000000000000003 10 7,0 000102030405060708090a0b0c0d0e0f
";

const OFFERS_TEXT: &str = "refused 2 task
refused 4 form
refused 5 value
refused 6 early
collected v 0 reports 1 rejected 0 sum 7
refused 10 task
collected v 0 reports 1 rejected 0 sum 7
refused 13 value
";

/// What stands before the line 11, where a third report is offered.
const TOLD_BEFORE_11: &str = "refused 2 task
refused 4 form
refused 5 value
refused 6 early
collected v 0 reports 1 rejected 0 sum 7
";

/// What stands before the line 8, where a second report is offered.
const TOLD_BEFORE_8: &str = "refused 2 task
refused 4 form
refused 5 value
refused 6 early
";

/// What a script prints.
fn printed(alloc: Global, limits: &Limits, script: &str) -> Result<Result<Vec<u8>, RunFault>, Fail>
    requires { length script.now ≤ 10000 }
{
    let lines = match read_script(alloc, script.as_bytes()) {
        Ok(lines) => lines,
        Err(_) => return Err("a script".into()),
    };
    Ok(printed_text::<Toy>(alloc, limits, Vec::new(alloc), &lines))
}

#[test]
fn scripts_print_what_the_model_says(rt: HostRuntime) -> Result<(), Fail> {
    for (script, text) in [
        (SCRIPT, TEXT),
        (SPANS, SPANS_TEXT),
        (UPLOADS, UPLOADS_TEXT),
        (KNOWN, KNOWN_TEXT),
        (TAMPERED, TAMPERED_TEXT),
        (OFFERS, OFFERS_TEXT),
    ] {
        let printed = printed(rt.alloc(), &WIDE, script)??;
        assert_eq!(rt; str::from_utf8(&printed).ok(), Some(text));
    }
    Ok(())
}

/// The line and the limit that a script passes, and the text before.
fn passed(alloc: Global, limits: &Limits, script: &str) -> Result<Option<(u32, u8, Vec<u8>)>, Fail>
    requires { length script.now ≤ 10000 }
{
    match printed(alloc, limits, script)? {
        Err(RunFault::Limit { line, limit, text }) => Ok(Some((line, limit, text))),
        _ => Ok(None),
    }
}

#[test]
fn limits_are_passed_at_their_line(rt: HostRuntime) -> Result<(), Fail> {
    let alloc = rt.alloc();
    for (reports, bytes, line, limit, before) in [
        (2, 1000, 11, 2, TOLD_BEFORE_11),
        (1, 88, 8, 2, TOLD_BEFORE_8),
        (9, 263, 11, 3, TOLD_BEFORE_11),
        (9, 88, 8, 3, TOLD_BEFORE_8),
        (0, 0, 6, 2, ""),
        (1, 87, 6, 3, ""),
    ] {
        let limits = Limits { reports, bytes };
        let (at, which, text) = passed(alloc, &limits, OFFERS)?.ok_or("a limit")?;
        assert_eq!(rt; (at, which), (line, limit));
        assert_eq!(rt; str::from_utf8(&text).ok(), Some(before));
    }
    let exact = Limits {
        reports: 3,
        bytes: 264,
    };
    assert!(rt; passed(alloc, &exact, OFFERS)?.is_none());
    Ok(())
}

/// What the collection of a given task's batch prints, where nothing else is done.
fn collected(alloc: Global, given: Task) -> Result<Vec<u8>, Fail> {
    let name = given.name;
    let _bytes = name.as_bytes();
    let span = Span {
        start: 0,
        buckets: 1,
    };
    let script = [Line::Collect { name, span }];
    Ok(printed_text::<Toy>(alloc, &WIDE, vec![in alloc; given]?, &script)?)
}

#[test]
fn given_tasks_are_known(rt: HostRuntime) -> Result<(), Fail> {
    let name = Name::new(b"v").ok_or("a name")?;
    let printed = collected(rt.alloc(), trial(name, Kind::Count, 3, 3600, None))?;
    assert_eq!(rt;
        str::from_utf8(&printed).ok(),
        Some("small v 0 reports 0\n")
    );
    Ok(())
}
