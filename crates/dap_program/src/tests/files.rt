//! Runs with a task file, and checks.

use super::{ONE_TASK, THREE_REPORTS, check_call, task_lines};
use std::test::Fail;

/// A file of one task that expires after all times.
const LATE: &str = "[[task]]
name = \"v\"
kind = \"count\"
min = 1
precision = 1
expires = 1000000000000000000
";

/// The file of one task without its minimum.
const NO_MIN: &str = "[[task]]
name = \"v\"
kind = \"count\"
precision = 3600
";

const TWO: &str = "[[task]]
name = \"s\"
kind = \"sum\"
bits = 8
min = 1
precision = 10
expires = 0
verify = \"00000000000000000000000000000000\"
leader = \"0000000000000000000000000000000000000000000000000000000000000000\"
helper = \"0000000000000000000000000000000000000000000000000000000000000000\"
[[task]]
name = \"h-1_\"
kind = \"histogram\"
bounds = [0, 10, 9223372036854775807]
min = 1000000
precision = 1000000000
expires = 999999999999999999
verify = \"FFffffffffffffffffffffffffffffff\"
leader = \"0000000000000000000000000000000000000000000000000000000000000000\"
helper = \"0000000000000000000000000000000000000000000000000000000000000000\"
";

#[test]
fn a_check_prints_the_lines_of_the_tasks(rt: HostRuntime) -> Result<(), Fail> {
    let cases = [
        (ONE_TASK, "task v count 3 3600\n"),
        (
            TWO,
            "task s sum 8 1 10 expires 0
task h-1_ histogram 0,10,9223372036854775807 1000000 1000000000 expires 999999999999999999
",
        ),
        ("task = []", ""),
    ];
    for (file, lines) in &cases {
        let files = [("tasks", *file)];
        check_call(
            &rt,
            rt.alloc(),
            &["check", "tasks"],
            &files,
            "",
            (0, "done"),
            lines,
        )?;
    }
    Ok(())
}

#[test]
fn a_faulty_task_file_is_refused(rt: HostRuntime) -> Result<(), Fail> {
    let cases = [
        (NO_MIN, "tasks refused: task 1 field min"),
        (LATE, "tasks refused: task 1 field expires"),
        ("task = [1]", "tasks refused: task 0 field file"),
    ];
    for (file, text) in &cases {
        let files = [("tasks", *file)];
        let status = (2, *text);
        check_call(&rt, rt.alloc(), &["check", "tasks"], &files, "", status, "")?;
        check_call(&rt, rt.alloc(), &["run", "tasks"], &files, "x", status, "")?;
    }
    Ok(())
}

/// The reports of a task of the file.
const REPORTS: &str =
    "measure v 00000000000000000000000000000001 10 1 00000000000000000000000000000001
measure v 00000000000000000000000000000002 20 0 00000000000000000000000000000002
measure v 00000000000000000000000000000003 3599 1 00000000000000000000000000000003
collect v 0
";

#[test]
fn a_script_is_run_with_the_tasks_of_the_file(rt: HostRuntime) -> Result<(), Fail> {
    check_call(
        &rt,
        rt.alloc(),
        &["run", "tasks"],
        &[("other", NO_MIN), ("tasks", ONE_TASK)],
        REPORTS,
        (0, "done"),
        "collected v 0 reports 3 rejected 0 count 2\n",
    )
}

#[test]
fn a_task_of_the_file_is_none_of_the_script(rt: HostRuntime) -> Result<(), Fail> {
    check_call(
        &rt,
        rt.alloc(),
        &["run", "tasks"],
        &[("tasks", ONE_TASK)],
        "collect v 0\n# x\ntask v count 3 3600\n",
        (3, "script refused: line 3"),
        "",
    )?;
    check_call(
        &rt,
        rt.alloc(),
        &["run", "tasks"],
        &[("tasks", ONE_TASK)],
        THREE_REPORTS,
        (3, "script refused: line 1"),
        "",
    )
}

#[test]
fn tasks_of_the_file_count_for_the_limit(rt: HostRuntime) -> Result<(), Fail> {
    let alloc = rt.alloc();
    let lines = task_lines(alloc, 1, 17)?;
    let files = [("tasks", ONE_TASK)];
    let status = (11, "limit 1 at line 16");
    check_call(
        &rt,
        alloc,
        &["run", "tasks"],
        &files,
        lines.as_str(),
        status,
        "",
    )?;
    let mut many = String::new(alloc);
    for number in 0..17u32 {
        let table = format!(in alloc;
            "[[task]]
name = \"t{number}\"
kind = \"count\"
min = 1
precision = 1
verify = \"00000000000000000000000000000000\"
leader = \"0000000000000000000000000000000000000000000000000000000000000000\"
helper = \"0000000000000000000000000000000000000000000000000000000000000000\"
"
        )?;
        many.push_str(table.as_str())?;
    }
    let files = [("tasks", many.as_str())];
    let status = (11, "limit 1 at line 0");
    check_call(&rt, alloc, &["run", "tasks"], &files, "", status, "")
}

#[test]
fn a_missing_file_is_a_read_fault(rt: HostRuntime) -> Result<(), Fail> {
    let files = [("tasks", ONE_TASK)];
    let status = (4, "read fault");
    check_call(&rt, rt.alloc(), &["check", "task"], &files, "", status, "")?;
    check_call(&rt, rt.alloc(), &["run", "task"], &files, "x", status, "")
}
