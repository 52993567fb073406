//! Task files. What is refused, and where, was asked of an independent program.

use super::*;
use std::alloc::{AllocError, Global};
use std::test::Fail;
use vdaf_api::Kind;

/// The file that the documents show.
const EXAMPLE: &str = r#"[[task]]
name = "v"
kind = "count"
min = 3
precision = 3600
verify = "000102030405060708090a0b0c0d0e0f"
leader = "101112131415161718191a1b1c1d1e1f202122232425262728292a2b2c2d2e2f"
helper = "303132333435363738393a3b3c3d3e3f404142434445464748494a4b4c4d4e4f"
"#;

/// Parts of the example, what stands in their place, and the refusal.
const REFUSED: [(&str, &str, &str); 55] = [
    ("[[task]]", "[task]", "task 0 field file"),
    ("[[task]]", "[[tasks]]", "task 0 field file"),
    ("[[task]]", "alpha = 1\n[[task]]", "task 0 field file"),
    ("min = 3", "min = 9223372036854775808", "task 0 field file"),
    (
        "name = \"v\"\nkind = \"count\"",
        "name = \"V\"\nkind = \"mean\"",
        "task 1 field name",
    ),
    ("\"count\"", "\"mean\"", "task 1 field kind"),
    (
        "\"count\"\nmin = 3",
        "\"mean\"\nmin = 0",
        "task 1 field kind",
    ),
    (
        "\"count\"\nmin = 3",
        "\"sum\"\nmin = 0",
        "task 1 field bits",
    ),
    (
        "\"count\"\nmin = 3",
        "\"histogram\"\nmin = 0",
        "task 1 field bounds",
    ),
    ("\"count\"", "\"sum\"\nbits = 0", "task 1 field bits"),
    ("\"count\"", "\"sum\"\nbits = 65", "task 1 field bits"),
    (
        "\"count\"",
        "\"histogram\"\nbounds = []",
        "task 1 field bounds",
    ),
    ("\"count\"", "\"count\"\nbits = 8", "task 1 field bits"),
    (
        "\"count\"",
        "\"histogram\"\nbounds = [5, 5]",
        "task 1 field bounds",
    ),
    (
        "\"count\"",
        "\"histogram\"\nbounds = [-1]",
        "task 1 field bounds",
    ),
    ("\"count\"", "\"vector\"\nbits = 0", "task 1 field len"),
    (
        "\"count\"",
        "\"vector\"\nlen = 0\nbits = 1",
        "task 1 field len",
    ),
    (
        "\"count\"",
        "\"vector\"\nlen = 1025\nbits = 0",
        "task 1 field len",
    ),
    ("\"count\"", "\"vector\"\nlen = 1", "task 1 field bits"),
    (
        "\"count\"",
        "\"vector\"\nlen = 1\nbits = 0",
        "task 1 field bits",
    ),
    (
        "\"count\"",
        "\"vector\"\nlen = 1\nbits = 33",
        "task 1 field bits",
    ),
    (
        "\"count\"",
        "\"vector\"\nlen = 1024\nbits = 2",
        "task 1 field bits",
    ),
    (
        "\"count\"",
        "\"vector\"\nlen = 64\nbits = 32",
        "task 1 field bits",
    ),
    (
        "\"count\"\nmin = 3",
        "\"vector\"\nlen = 1\nbits = 1\nmin = 0",
        "task 1 field min",
    ),
    (
        "\"count\"",
        "\"vector\"\nlen = 1\nbits = 1\nbounds = [1]",
        "task 1 field bounds",
    ),
    (
        "\"count\"",
        "\"sum\"\nbits = 1\nlen = 1",
        "task 1 field len",
    ),
    ("min = 3\n", "", "task 1 field min"),
    ("min = 3", "min = \"3\"", "task 1 field min"),
    (
        "min = 3\nprecision = 3600",
        "min = 1000001\nprecision = 0",
        "task 1 field min",
    ),
    ("min = 3", "min = 0\nalpha = 1", "task 1 field min"),
    ("3600", "1000000001", "task 1 field precision"),
    ("3600", "3600\nexpires = -1", "task 1 field expires"),
    (
        "3600",
        "3600\nexpires = 1000000000000000000",
        "task 1 field expires",
    ),
    ("3600", "3600\nexpires = \"5\"", "task 1 field expires"),
    ("3600", "3600\nexpires = 1.0", "task 1 field expires"),
    ("3600", "3600\nexpires = true", "task 1 field expires"),
    ("3600", "3600\nexpires = []", "task 1 field expires"),
    (
        "3600",
        "3600\nexpires = 1\nexpires = 1",
        "task 0 field file",
    ),
    (
        "3600",
        "3600\nexpires = 9223372036854775808",
        "task 0 field file",
    ),
    ("3600", "0\nexpires = -1", "task 1 field precision"),
    (
        "3600\nverify = \"00",
        "3600\nexpires = -1\nverify = \"0g",
        "task 1 field expires",
    ),
    (
        "3600\nverify = \"00",
        "3600\nexpires = 0\nverify = \"0g",
        "task 1 field verify",
    ),
    ("3600", "3600\nExpires = 1", "task 1 field Expires"),
    (
        "3600\nverify = \"00",
        "0\nverify = \"0g",
        "task 1 field precision",
    ),
    (
        "0e0f\"\nleader = \"10",
        "0e0\"\nleader = \"1g",
        "task 1 field verify",
    ),
    (
        "2e2f\"\nhelper = \"30",
        "2e2\"\nhelper = \"3g",
        "task 1 field leader",
    ),
    ("\"00", "\"0g", "task 1 field verify"),
    ("2e2f\"", "2e\"", "task 1 field leader"),
    ("helper =", "helpers =", "task 1 field helper"),
    (
        "min = 3",
        "min = 3\na-key-of-more-than-thirty-two-characters = 1",
        "task 1 field a-key-of-more-than-thirty-two-characters",
    ),
    (
        "min = 3",
        "min = 3\nzeta = 1\nalpha = 2",
        "task 1 field alpha",
    ),
    (
        "4e4f\"\n",
        "4e4f\"\n[[task]]\nname = \"v\"\n",
        "task 2 field name",
    ),
    (
        "4e4f\"\n",
        "4e4f\"\n[[task]]\nname = \"w\"\n",
        "task 2 field kind",
    ),
    (
        "4e4f\"\n",
        "4e4f\"\nalpha = 1\n[[task]]\n",
        "task 1 field alpha",
    ),
    ("4e4f\"\n", "4e4f\"\n[other]\n", "task 0 field file"),
];

/// What a file comes to, in words.
fn answer(alloc: Global, text: &str) -> Result<String, AllocError> {
    match read_tasks(alloc, text.as_bytes()) {
        Ok(tasks) => format!(in alloc; "{} tasks", tasks.len()),
        Err(fault) => format!(in alloc; "{fault}"),
    }
}

#[test]
fn the_example_is_one_task(rt: HostRuntime) -> Result<(), Fail> {
    let tasks = read_tasks(rt.alloc(), EXAMPLE.as_bytes())?;
    let [task] = tasks.as_slice() else {
        return Err(Fail::from("one task"));
    };
    assert_eq!(rt; task.name.as_bytes(), b"v".as_slice());
    assert!(rt; task.kind == Kind::Count);
    assert_eq!(rt; (task.min, task.precision), (3, 3600));
    assert!(rt; task.expires.is_none());
    let found = [
        task.verify,
        task.leader.enc,
        task.leader.mac,
        task.helper.enc,
        task.helper.mac,
    ];
    for i in 0..5 {
        let first = 0x000102030405060708090a0b0c0d0e0f
            + i as u128 * 0x10101010101010101010101010101010;
        assert_eq!(rt; u128::from_be_bytes(found[i]), first, "key {i}");
    }
    Ok(())
}

#[test]
fn a_task_says_when_it_expires(rt: HostRuntime) -> Result<(), Fail> {
    let alloc = rt.alloc();
    for (text, expires) in [
        ("3600\nexpires = 0", 0),
        ("3600\nexpires = 50", 50),
        (
            "3600\nexpires = 999999999999999999",
            999_999_999_999_999_999,
        ),
    ] {
        let text = EXAMPLE.replace(alloc, "3600", text)?;
        let tasks = read_tasks(alloc, text.as_bytes())?;
        let [task] = tasks.as_slice() else {
            return Err(Fail::from("one task"));
        };
        assert_eq!(rt; task.expires, Some(expires));
    }
    Ok(())
}

#[test]
fn a_vector_has_its_sizes(rt: HostRuntime) -> Result<(), Fail> {
    let alloc = rt.alloc();
    let text = EXAMPLE.replace(alloc, "\"count\"", "\"vector\"\nlen = 63\nbits = 32")?;
    let tasks = read_tasks(alloc, text.as_bytes())?;
    let [task] = tasks.as_slice() else {
        return Err(Fail::from("one task"));
    };
    assert!(rt; task.kind == Kind::Vector { len: 63, bits: 32 });
    Ok(())
}

#[test]
fn the_first_refusal_is_named(rt: HostRuntime) -> Result<(), Fail> {
    let alloc = rt.alloc();
    for (old, new, want) in &REFUSED {
        let text = EXAMPLE.replace(alloc, *old, new)?;
        assert_eq!(rt; answer(alloc, &text)?.as_str(), *want, "{new}");
    }
    Ok(())
}

#[test]
fn ends_of_ranges_are_read(rt: HostRuntime) -> Result<(), Fail> {
    let alloc = rt.alloc();
    for (old, new) in [
        ("\"count\"", "\"sum\"\nbits = 1"),
        ("\"count\"", "\"sum\"\nbits = 64"),
        ("\"count\"", "\"vector\"\nlen = 1\nbits = 1"),
        ("\"count\"", "\"vector\"\nlen = 1024\nbits = 1"),
        ("\"count\"", "\"vector\"\nlen = 1023\nbits = 2"),
        ("\"count\"", "\"vector\"\nlen = 63\nbits = 32"),
        ("\"count\"", "\"histogram\"\nbounds = [7]"),
        (
            "\"count\"",
            "\"histogram\"\nbounds = [0, 9223372036854775807]",
        ),
        ("min = 3", "min = 1"),
        ("min = 3", "min = 1000000"),
        ("3600", "1"),
        ("3600", "1000000000"),
        ("3600", "3600\nexpires = 0"),
        ("3600", "3600\nexpires = 999999999999999999"),
        ("[[task]]", "[[task]]\nexpires = 1"),
        ("2e2f", "2E2F"),
    ] {
        let text = EXAMPLE.replace(alloc, old, new)?;
        assert_eq!(rt; answer(alloc, &text)?.as_str(), "1 tasks", "{new}");
    }
    Ok(())
}

#[test]
fn a_histogram_has_at_most_1023_bounds(rt: HostRuntime) -> Result<(), Fail> {
    let alloc = rt.alloc();
    for (size, want) in [
        (64_u32, "1 tasks"),
        (1023, "1 tasks"),
        (1024, "task 1 field bounds"),
    ] {
        let mut kind = String::from_str(alloc, "\"histogram\"\nbounds = [0")?;
        for bound in 1..size {
            kind.push_str(format!(in alloc; ", {bound}")?.as_str())?;
        }
        kind.push_str("]")?;
        let text = EXAMPLE.replace(alloc, "\"count\"", kind.as_str())?;
        assert_eq!(rt; answer(alloc, &text)?.as_str(), want, "{size} bounds");
    }
    Ok(())
}

#[test]
fn short_files_are_read_or_refused(rt: HostRuntime) -> Result<(), Fail> {
    let alloc = rt.alloc();
    for (text, want) in [
        ("", "task 0 field file"),
        ("task = 1", "task 0 field file"),
        ("task = [1]", "task 0 field file"),
        ("task = [{}]", "task 1 field name"),
        ("task = []", "0 tasks"),
    ] {
        assert_eq!(rt; answer(alloc, text)?.as_str(), want, "{text}");
    }
    assert!(rt; read_tasks(alloc, &[0xff]).is_err());
    Ok(())
}

#[test]
fn a_file_may_have_many_tasks(rt: HostRuntime) -> Result<(), Fail> {
    let alloc = rt.alloc();
    let mut text = String::new(alloc);
    for number in 0..40 {
        let name = format!(in alloc; "\"v{number}\"")?;
        let task = EXAMPLE.replace(alloc, "\"v\"", &name)?;
        text.push_str(&task)?;
    }
    assert_eq!(rt; answer(alloc, &text)?.as_str(), "40 tasks");
    text.push_str(EXAMPLE)?;
    text.push_str(EXAMPLE)?;
    assert_eq!(rt; answer(alloc, &text)?.as_str(), "task 42 field name");
    assert_eq!(rt;
        format!(in alloc; "{}", TasksFault::NoMemory)?.as_str(),
        "no memory"
    );
    Ok(())
}

#[test]
fn a_file_has_at_most_1048576_bytes(rt: HostRuntime) -> Result<(), Fail> {
    let alloc = rt.alloc();
    let mut text = String::from_str(alloc, "task = []\n")?;
    for _ in text.len()..1_048_576 {
        text.push(' ')?;
    }
    assert_eq!(rt; answer(alloc, &text)?.as_str(), "0 tasks");
    text.push(' ')?;
    assert_eq!(rt; answer(alloc, &text)?.as_str(), "task 0 field file");
    Ok(())
}
