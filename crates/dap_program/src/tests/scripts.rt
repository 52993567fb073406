//! Scripts without a task file, and words.

use super::{THREE_REPORTS, check_call, task_lines};
use load_maker::load_script;
use std::alloc::Global;
use std::test::Fail;

/// Scripts and what they print.
const PRINTED: [(&str, &str); 32] = [
    (
        THREE_REPORTS,
        "collected v 0 reports 3 rejected 0 count 2\n",
    ),
    // No line, and a blank one, a comment and a carriage return.
    ("", ""),
    (
        "\n# two lines that do nothing\ntask v count 1 1\r\ncollect v 7\r\n",
        "small v 7 reports 0\n",
    ),
    // One report fewer than the minimum.
    (
        "task v count 4 3600
measure v 00000000000000000000000000000001 10 1 00000000000000000000000000000001
measure v 00000000000000000000000000000002 20 0 00000000000000000000000000000002
measure v 00000000000000000000000000000003 3599 1 00000000000000000000000000000003
collect v 0
",
        "small v 0 reports 3\n",
    ),
    // A small batch stays open.
    (
        "task v count 3 3600
measure v 00000000000000000000000000000001 10 1 00000000000000000000000000000001
measure v 00000000000000000000000000000002 20 0 00000000000000000000000000000002
collect v 0
measure v 00000000000000000000000000000003 3599 1 00000000000000000000000000000003
collect v 0
collect v 3600
",
        "small v 0 reports 2
collected v 0 reports 3 rejected 0 count 2
small v 3600 reports 0
",
    ),
    // A batch ends before the next begins.
    (
        "task v count 1 3600
measure v 00000000000000000000000000000001 3599 1 00000000000000000000000000000001
measure v 00000000000000000000000000000002 3600 1 00000000000000000000000000000002
collect v 0
collect v 3600
",
        "collected v 0 reports 1 rejected 0 count 1
collected v 3600 reports 1 rejected 0 count 1
",
    ),
    // A repeat is accepted and not counted again.
    (
        "task v count 3 3600
measure v 00000000000000000000000000000001 10 1 00000000000000000000000000000001
measure v 00000000000000000000000000000001 10 1 00000000000000000000000000000001
measure v 00000000000000000000000000000002 20 0 00000000000000000000000000000002
measure v 00000000000000000000000000000003 3599 1 00000000000000000000000000000003
collect v 0
",
        "collected v 0 reports 3 rejected 0 count 2\n",
    ),
    // Another report under an identifier that is taken.
    (
        "task v count 3 3600
measure v 00000000000000000000000000000001 10 1 00000000000000000000000000000001
measure v 00000000000000000000000000000002 20 0 00000000000000000000000000000002
measure v 00000000000000000000000000000001 3600 1 00000000000000000000000000000001
measure v 00000000000000000000000000000003 3599 1 00000000000000000000000000000003
collect v 0
",
        "refused 4 conflict
collected v 0 reports 3 rejected 0 count 2
",
    ),
    // A collected batch takes no more, and is printed again.
    (
        "task v count 3 3600
measure v 00000000000000000000000000000001 10 1 00000000000000000000000000000001
measure v 00000000000000000000000000000002 20 0 00000000000000000000000000000002
measure v 00000000000000000000000000000003 3599 1 00000000000000000000000000000003
collect v 0
measure v 00000000000000000000000000000004 30 1 00000000000000000000000000000004
collect v 0
",
        "collected v 0 reports 3 rejected 0 count 2
refused 6 collected
collected v 0 reports 3 rejected 0 count 2
",
    ),
    // A sum of 8 bits, and a value that has 9.
    (
        "task s sum 8 3 3600
measure s 00000000000000000000000000000001 10 255 00000000000000000000000000000001
measure s 00000000000000000000000000000002 20 0 00000000000000000000000000000002
measure s 00000000000000000000000000000003 3599 7 00000000000000000000000000000003
measure s 00000000000000000000000000000004 1 256 00000000000000000000000000000004
collect s 0
",
        "refused 5 value
collected s 0 reports 3 rejected 0 sum 262
",
    ),
    // A sum of 64 bits that passes them.
    (
        "task s sum 64 3 3600
measure s 00000000000000000000000000000001 10 18446744073709551615 00000000000000000000000000000001
measure s 00000000000000000000000000000002 20 18446744073709551615 00000000000000000000000000000002
measure s 00000000000000000000000000000003 3599 18446744073709551615 00000000000000000000000000000003
collect s 0
",
        "collected s 0 reports 3 rejected 0 sum 55340232221128654845\n",
    ),
    // Vectors are summed place by place; a list of another length, and a number of 9 bits, are none of the kind.
    (
        "task w vector 3 8 2 3600
measure w 00000000000000000000000000000001 10 1,2,3 00000000000000000000000000000001
measure w 00000000000000000000000000000002 20 255,0,4 00000000000000000000000000000002
measure w 00000000000000000000000000000003 30 1,2 00000000000000000000000000000003
measure w 00000000000000000000000000000004 40 256,0,0 00000000000000000000000000000004
collect w 0
",
        "refused 4 value
refused 5 value
collected w 0 reports 2 rejected 0 vector 256,2,7
",
    ),
    // A list of more than one number is no measurement of another kind.
    (
        "task v count 1 3600
task s sum 8 1 3600
task h histogram 5 1 3600
measure v 00000000000000000000000000000001 10 1,0 00000000000000000000000000000001
measure s 00000000000000000000000000000002 10 1,0 00000000000000000000000000000002
measure h 00000000000000000000000000000003 10 1,0 00000000000000000000000000000003
measure x 00000000000000000000000000000004 10 1,0 00000000000000000000000000000004
collect v 0
",
        "refused 4 value
refused 5 value
refused 6 value
refused 7 task
small v 0 reports 0
",
    ),
    // A vector of one number, and its repeat, conflict and expiry.
    (
        "task w vector 1 32 1 10 expires 50
measure w 00000000000000000000000000000001 1 4294967295 00000000000000000000000000000001
measure w 00000000000000000000000000000001 1 4294967295 00000000000000000000000000000001
measure w 00000000000000000000000000000001 1 4294967294 00000000000000000000000000000001
measure w 00000000000000000000000000000002 9 4294967295 00000000000000000000000000000002
measure w 00000000000000000000000000000003 9 4294967296 00000000000000000000000000000003
now 50
measure w 00000000000000000000000000000004 9 1 00000000000000000000000000000004
collect w 0
",
        "refused 4 conflict
refused 6 value
refused 8 expired
collected w 0 reports 2 rejected 0 vector 8589934590
",
    ),
    // A bound belongs to the bucket below it.
    (
        "task h histogram 10,20,30 1 3600
measure h 00000000000000000000000000000001 1 10 00000000000000000000000000000001
measure h 00000000000000000000000000000002 2 11 00000000000000000000000000000002
measure h 00000000000000000000000000000003 3 30 00000000000000000000000000000003
measure h 00000000000000000000000000000004 4 31 00000000000000000000000000000004
collect h 0
",
        "collected h 0 reports 4 rejected 0 histogram 1,1,1,1\n",
    ),
    // No such task, and a start inside a batch.
    (
        "task v count 3 3600\ncollect w 0\ncollect v 1\n",
        "refused 2 task\nrefused 3 start\n",
    ),
    (
        "measure w 00000000000000000000000000000001 0 1 00000000000000000000000000000001
task w count 1 1
measure v 00000000000000000000000000000001 0 1 00000000000000000000000000000001
collect w 0
",
        "refused 3 task\ncollected w 0 reports 1 rejected 0 count 1\n",
    ),
    // Tasks have their own reports, and batches any order.
    (
        "task a count 1 10
task b sum 1 1 20
measure b 00000000000000000000000000000001 39 1 00000000000000000000000000000001
measure a 00000000000000000000000000000001 39 0 00000000000000000000000000000001
collect b 20
collect a 30
collect a 0
",
        "collected b 20 reports 1 rejected 0 sum 1
collected a 30 reports 1 rejected 0 count 0
small a 0 reports 0
",
    ),
    ("task v count 3 3600", ""),
    // A report more than 300 above the moment, and one that isn't.
    (
        "task v count 1 3600
now 100
measure v 00000000000000000000000000000001 500 1 00000000000000000000000000000001
measure v 00000000000000000000000000000002 400 1 00000000000000000000000000000002
collect v 0
",
        "refused 3 early\ncollected v 0 reports 1 rejected 0 count 1\n",
    ),
    // An uploaded report counts as a measured one.
    (
        "task v count 3 3600
measure v 00000000000000000000000000000001 10 1 00000000000000000000000000000001
measure v 00000000000000000000000000000002 20 0 00000000000000000000000000000002
measure v 00000000000000000000000000000003 3599 1 00000000000000000000000000000003
upload AXYAAAAAAAAAAAAAAAAAAAAEAAAAAAAAAB4AAAAAAAAAAABAV12ADHmzT8PeDl9QnS1yabhKHxX7fz2oEsqGSVUg1rRlBcf1szRYqBgwkTVMq65AjGEZCJJ3JQVYyyAwdVjENgAAADCRZZ6bOxPSeYy/jJsVGzTkRk4VTXdpj9s9Zm+Eh34MLw8LJVMOuBnjaQgtRh9nJpg=
collect v 0
",
        "collected v 0 reports 4 rejected 0 count 3\n",
    ),
    // Where the first bit of the helper's half is changed, it is rejected.
    (
        "task v count 3 3600
measure v 00000000000000000000000000000001 10 1 00000000000000000000000000000001
measure v 00000000000000000000000000000002 20 0 00000000000000000000000000000002
measure v 00000000000000000000000000000003 3599 1 00000000000000000000000000000003
upload AXYAAAAAAAAAAAAAAAAAAAAEAAAAAAAAAB4AAAAAAAAAAABAV12ADHmzT8PeDl9QnS1yabhKHxX7fz2oEsqGSVUg1rRlBcf1szRYqBgwkTVMq65AjGEZCJJ3JQVYyyAwdVjENgAAADARZZ6bOxPSeYy/jJsVGzTkRk4VTXdpj9s9Zm+Eh34MLw8LJVMOuBnjaQgtRh9nJpg=
collect v 0
",
        "collected v 0 reports 3 rejected 1 count 2\n",
    ),
    // Bytes that begin with no name, with that of no task, and with that of a task but go on as no report.
    ("upload AAAA\n", "refused 1 form\n"),
    ("upload AXgA\n", "refused 1 task\n"),
    ("task x count 1 1\nupload AXgA\n", "refused 2 form\n"),
    // A batch of three buckets, of which the first two are too few; no bucket of it is collected alone or takes a report.
    (
        "task v count 3 3600
measure v 00000000000000000000000000000001 10 1 00000000000000000000000000000001
measure v 00000000000000000000000000000002 3700 0 00000000000000000000000000000002
measure v 00000000000000000000000000000003 7300 1 00000000000000000000000000000003
collect v 0 2
collect v 0 3
collect v 3600
measure v 00000000000000000000000000000004 3601 1 00000000000000000000000000000004
collect v 0 3
",
        "small v 0 2 reports 2
collected v 0 3 reports 3 rejected 0 count 2
refused 7 overlap 0 3
refused 8 collected
collected v 0 3 reports 3 rejected 0 count 2
",
    ),
    // One bucket may be said or left out.
    (
        "task v count 1 10\nmeasure v 00000000000000000000000000000001 10 1 00000000000000000000000000000001\ncollect v 10 1\ncollect v 10\n",
        "collected v 10 reports 1 rejected 0 count 1\ncollected v 10 reports 1 rejected 0 count 1\n",
    ),
    // The last bucket begins after all times, and at the last time.
    (
        "task w count 1 1000000000\ncollect w 999999999000000000 2\ncollect w 999999999000000000 1\n",
        "refused 2 start\nsmall w 999999999000000000 reports 0\n",
    ),
    (
        "task w count 1 1\ncollect w 999999999999999936 64\ncollect w 999999999999999937 64\n",
        "small w 999999999999999936 64 reports 0\nrefused 3 start\n",
    ),
    // Batches that share a bucket, of which the one that starts first is named; another task's are its own.
    (
        "task v sum 8 1 10
task w sum 8 1 10
measure v 00000000000000000000000000000001 45 7 00000000000000000000000000000001
measure v 00000000000000000000000000000002 19 5 00000000000000000000000000000002
measure w 00000000000000000000000000000003 25 3 00000000000000000000000000000003
collect v 40 2
collect v 10 2
collect v 0 64
collect v 20
collect v 30
collect v 50 1
collect v 20 2
collect w 0 64
collect v 10
measure v 00000000000000000000000000000004 29 1 00000000000000000000000000000004
measure v 00000000000000000000000000000005 30 2 00000000000000000000000000000005
measure v 00000000000000000000000000000006 60 4 00000000000000000000000000000006
collect v 30 1
collect v 60
collect v 10 2
collect w 639
",
        "collected v 40 2 reports 1 rejected 0 sum 7
collected v 10 2 reports 1 rejected 0 sum 5
refused 8 overlap 10 2
refused 9 overlap 10 2
small v 30 reports 0
refused 11 overlap 40 2
refused 12 overlap 10 2
collected w 0 64 reports 1 rejected 0 sum 3
refused 14 overlap 10 2
refused 15 collected
collected v 30 reports 1 rejected 0 sum 2
collected v 60 reports 1 rejected 0 sum 4
collected v 10 2 reports 1 rejected 0 sum 5
refused 21 start
",
    ),
    // A task takes no more reports from its expiry on, and a report that it has is accepted still.
    (
        "task v count 1 3600 expires 50
now 49
measure v 00000000000000000000000000000001 10 1 00000000000000000000000000000001
now 50
measure v 00000000000000000000000000000002 20 1 00000000000000000000000000000002
measure v 00000000000000000000000000000001 10 1 00000000000000000000000000000001
collect v 0
",
        "refused 5 expired
collected v 0 reports 1 rejected 0 count 1
",
    ),
    // What is early is called so first; what has expired is called so before it is in conflict or its bucket collected.
    (
        "task v count 1 10 expires 0
measure v 00000000000000000000000000000001 5 1 00000000000000000000000000000001
collect v 0
now 0
measure v 00000000000000000000000000000002 301 1 00000000000000000000000000000002
measure v 00000000000000000000000000000002 300 1 00000000000000000000000000000002
measure v 00000000000000000000000000000001 5 0 00000000000000000000000000000001
measure v 00000000000000000000000000000003 5 0 00000000000000000000000000000003
measure v 00000000000000000000000000000001 5 1 00000000000000000000000000000001
measure v 00000000000000000000000000000004 5 2 00000000000000000000000000000004
collect v 0
",
        "collected v 0 reports 1 rejected 0 count 1
refused 5 early
refused 6 expired
refused 7 expired
refused 8 expired
refused 10 value
collected v 0 reports 1 rejected 0 count 1
",
    ),
];

#[test]
fn scripts_print_what_the_model_says(rt: HostRuntime) -> Result<(), Fail> {
    for (script, text) in &PRINTED {
        check_call(&rt, rt.alloc(), &["run"], &[], script, (0, "done"), text)?;
    }
    Ok(())
}

/// The script of a histogram with so many bounds, but at least one: 0, 1, 2 and so on, and the measurements 1022 and
/// 5000.
fn histogram_script(alloc: Global, size: u32) -> Result<String, Fail> {
    let mut script = String::from_str(alloc, "task h histogram 0")?;
    for bound in 1..size {
        script.push_str(format!(in alloc; ",{bound}")?.as_str())?;
    }
    script.push_str(
        " 1 3600
measure h 00000000000000000000000000000001 1 1022 00000000000000000000000000000001
measure h 00000000000000000000000000000002 2 5000 00000000000000000000000000000002
collect h 0
",
    )?;
    Ok(script)
}

#[test]
fn the_widest_histogram_has_1024_numbers(rt: HostRuntime) -> Result<(), Fail> {
    let alloc = rt.alloc();
    let mut printed = String::from_str(alloc, "collected h 0 reports 2 rejected 0 histogram ")?;
    for _ in 0..1022 {
        printed.push_str("0,")?;
    }
    printed.push_str("1,1\n")?;
    for (size, status, text) in [
        (1023, (0, "done"), printed.as_str()),
        (1024, (3, "script refused: line 1"), ""),
    ] {
        let script = histogram_script(alloc, size)?;
        check_call(&rt, alloc, &["run"], &[], script.as_str(), status, text)?;
    }
    Ok(())
}

/// As many times this number as said, at least once, with commas between.
fn repeated(alloc: Global, number: &str, times: u32) -> Result<String, Fail> {
    let mut list = String::from_str(alloc, number)?;
    for _ in 1..times {
        list.push_str(",")?;
        list.push_str(number)?;
    }
    Ok(list)
}

#[test]
fn the_widest_vectors_are_summed(rt: HostRuntime) -> Result<(), Fail> {
    let alloc = rt.alloc();
    for (len, bits, number, sum) in [
        (1024, 1, "1", "2"),
        (63, 32, "4294967295", "8589934590"),
        (1023, 2, "3", "6"),
    ] {
        let list = repeated(alloc, number, len)?;
        let sums = repeated(alloc, sum, len)?;
        let script = format!(in alloc;
            "task w vector {len} {bits} 2 3600
measure w 00000000000000000000000000000001 1 {list} 00000000000000000000000000000001
measure w 00000000000000000000000000000002 2 {list} 00000000000000000000000000000002
collect w 0
"
        )?;
        let printed = format!(in alloc; "collected w 0 reports 2 rejected 0 vector {sums}\n")?;
        let done = (0, "done");
        check_call(
            &rt,
            alloc,
            &["run"],
            &[],
            script.as_str(),
            done,
            printed.as_str(),
        )?;
    }
    Ok(())
}

/// Scripts that aren't run, and the status.
const STOPPED: [(&str, (u8, &str)); 14] = [
    (
        "task v count 3 3600\nmeasur v\n",
        (3, "script refused: line 2"),
    ),
    ("task v count 0 1\n", (3, "script refused: line 1")),
    (
        "task v count 1 1\ncollect v 0\ntask v sum 1 1 1",
        (3, "script refused: line 3"),
    ),
    // The grammar is tested first.
    ("restart leader\nx\n", (3, "script refused: line 2")),
    (
        "task v count 1 1\ncollect v 0\nupload Zg==\nrestart leader\n",
        (13, "not yet: line 4"),
    ),
    (
        "\nrestart leader\nrestart helper\n",
        (13, "not yet: line 2"),
    ),
    ("#\n\nrestart helper", (13, "not yet: line 3")),
    ("upload Zg=\n", (3, "script refused: line 1")),
    ("now 1000000000000000000\n", (3, "script refused: line 1")),
    (
        "task v count 1 1\ncollect v 0 65\n",
        (3, "script refused: line 2"),
    ),
    (
        "task v count 1 1\ncollect v 0 0\n",
        (3, "script refused: line 2"),
    ),
    (
        "task v count 1 1 expires 1000000000000000000\n",
        (3, "script refused: line 1"),
    ),
    ("task w vector 1024 2 1 1\n", (3, "script refused: line 1")),
    ("task w vector 64 32 1 1\n", (3, "script refused: line 1")),
];

#[test]
fn a_line_that_is_not_run_is_named(rt: HostRuntime) -> Result<(), Fail> {
    for (script, status) in &STOPPED {
        check_call(&rt, rt.alloc(), &["run"], &[], script, *status, "")?;
    }
    Ok(())
}

#[test]
fn a_seventeenth_task_passes_a_limit(rt: HostRuntime) -> Result<(), Fail> {
    let alloc = rt.alloc();
    let lines = task_lines(alloc, 1, 18)?;
    let status = (11, "limit 1 at line 17");
    check_call(&rt, alloc, &["run"], &[], lines.as_str(), status, "")?;
    // A line that isn't run yet is named first.
    let later = format!(in alloc; "{lines}restart leader\n")?;
    let status = (13, "not yet: line 18");
    check_call(&rt, alloc, &["run"], &[], later.as_str(), status, "")
}

/// Words that are no command, and the status.
const FAULTY: [(&[&str], &str); 23] = [
    (&[], "usage: word 1"),
    (&["ran"], "usage: word 1"),
    (&["run", "lanes"], "usage: word 2"),
    (&["run", "lanes", "17"], "usage: word 2"),
    (&["run", ""], "usage: word 2"),
    (&["run", "tasks", "lanes"], "usage: word 3"),
    (&["check"], "usage: word 2"),
    (&["check", "store"], "usage: word 2"),
    (&["check", "tasks", "tasks"], "usage: word 3"),
    (&["run", "workers"], "usage: word 2"),
    (&["run", "loss"], "usage: word 2"),
    (&["check", "workers"], "usage: word 2"),
    (&["load"], "usage: word 2"),
    (&["load", "0", "1"], "usage: word 2"),
    (&["load", "50001", "1"], "usage: word 2"),
    (&["load", "01", "1"], "usage: word 2"),
    (&["load", "50000"], "usage: word 3"),
    (&["load", "3", "-1"], "usage: word 3"),
    (&["load", "3", "18446744073709551616"], "usage: word 3"),
    (&["load", "3", "5", "5"], "usage: word 4"),
    (&["--help", "x"], "usage: word 2"),
    (&["--version", "--version"], "usage: word 2"),
    (&["help"], "usage: word 1"),
];

#[test]
fn words_that_are_no_command_are_refused(rt: HostRuntime) -> Result<(), Fail> {
    for (words, text) in &FAULTY {
        check_call(&rt, rt.alloc(), words, &[], THREE_REPORTS, (1, *text), "")?;
    }
    Ok(())
}

/// The load of three measurements and the seed 5, as an independent program prints it.
const LOAD: &str = "task load sum 16 1 3600
measure load 00000000000000000000000000000000 0 5 00000000000000050000000000000000
measure load 01000000000000000000000000000001 1 6 00000000000000050000000000000001
measure load 02000000000000000000000000000002 2 9 00000000000000050000000000000002
collect load 0
collect load 3600
";

#[test]
fn a_load_is_printed_and_run(rt: HostRuntime) -> Result<(), Fail> {
    let alloc = rt.alloc();
    let done = (0, "done");
    check_call(&rt, alloc, &["load", "3", "5"], &[], "x", done, LOAD)?;
    let sums = "collected load 0 reports 3 rejected 0 sum 20\nsmall load 3600 reports 0\n";
    check_call(&rt, alloc, &["run"], &[], LOAD, done, sums)?;
    check_call(&rt, alloc, &["--version"], &[], "x", done, "dap 0.1.0\n")?;
    let load = load_script(alloc, 100, 7)?;
    let load = str::from_utf8(load.as_slice()).expect(&rt, "a load is ASCII");
    let sums = "collected load 0 reports 100 rejected 0 sum 329050\nsmall load 3600 reports 0\n";
    check_call(&rt, alloc, &["run"], &[], load, done, sums)
}

#[test]
fn a_thousand_measurements_are_run(rt: HostRuntime) -> Result<(), Fail> {
    let alloc = rt.alloc();
    let load = load_script(alloc, 1000, 1)?;
    let load = str::from_utf8(load.as_slice()).expect(&rt, "a load is ASCII");
    let sums = "collected load 0 reports 1000 rejected 0 sum 29271748\nsmall load 3600 reports 0\n";
    check_call(&rt, alloc, &["run"], &[], load, (0, "done"), sums)
}
