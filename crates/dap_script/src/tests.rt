//! Scripts and the lines that are refused.

ghost use Rattle.std.specs.Prelude.{◌≤◌, length};
ghost use Rattle.dap_bytes.specs.declared.limits.TheConstants.{LONGEST_SCRIPT};

use super::*;
use dap_bytes::{Bytes, LONGEST_SCRIPT, Name, Node, Span};
use std::alloc::{AllocError, Global};
use std::test::Fail;
use vdaf_api::{Bounds, Kind, Measurement};

const TEXT: &[u8] = b"# every form of line
task v count 3 3600\r

task s-1 sum 64 1000000 1000000000 expires 999999999999999999
task h_ histogram 0,10,18446744073709551615 1 1
task w vector 63 32 1 1
now 999999999999999999
measure v 000102030405060708090a0b0c0d0e0f 10 18446744073709551615 ffffffffffffffffffffffffffffff00
measure w 000102030405060708090a0b0c0d0e0f 11 3,0,18446744073709551615 ffffffffffffffffffffffffffffff00
upload Zm8=
collect v 7200
collect v 7200 1
collect v 7200 2
collect v 7200 64
restart leader
restart helper";

/// Lines that are read, each as a script of its own.
const TAKEN: [&[u8]; 38] = [
    b"# \x00\x7f\r is a comment",
    b"# ends with a return\r",
    b"collect v 999999999999999999",
    b"collect nnnnnnnnnnnnnnnnnnnnnnnnnnnnnnnn 0",
    b"collect v 0 1",
    b"collect v 0 64",
    b"collect v 999999999999999999 64",
    b"now 0",
    b"now 999999999999999999",
    b"task v count 1 1",
    b"task v count 1000000 1",
    b"task v count 1 1000000000",
    b"task v sum 1 1 1",
    b"task v sum 64 1 1",
    b"task v count 1 1 expires 0",
    b"task v count 1 1 expires 999999999999999999",
    b"task v sum 1 1 1 expires 1",
    b"task v histogram 7 1 1 expires 1",
    b"task expires count 1 1",
    b"task expires count 1 1 expires 1",
    b"task v histogram 0 1 1",
    b"task v histogram 1,2 1 1",
    b"task v histogram 18446744073709551615 1 1",
    b"task v vector 1 1 1 1",
    b"task v vector 1024 1 1 1",
    b"task v vector 1023 2 1 1",
    b"task v vector 63 32 1 1",
    b"task v vector 1 32 1 1 expires 0",
    b"measure v 000102030405060708090a0b0c0d0e0f 0 0,0 000102030405060708090a0b0c0d0e0f",
    b"measure v 000102030405060708090a0b0c0d0e0f 0 1,18446744073709551615,2 000102030405060708090a0b0c0d0e0f",
    b"measure v 000102030405060708090a0b0c0d0e0f 0 0 000102030405060708090a0b0c0d0e0f",
    b"measure v 000102030405060708090a0b0c0d0e0f 999999999999999999 18446744073709551615 000102030405060708090a0b0c0d0e0f",
    b"upload Zg==",
    b"upload Zm8=",
    b"upload Zm9v",
    b"upload +/+/",
    b"restart leader",
    b"restart helper",
];

/// Lines that are refused.
const REFUSED: [&[u8]; 115] = [
    b"# \x80",
    b"collect v 0\r",
    b" # a",
    b" collect v 0",
    b"collect\tv 0",
    b"Collect v 0",
    b"collect V 0",
    b"collect v",
    b"collect v 01",
    b"collect v 00",
    b"collect v +1",
    b"collect v -1",
    b"collect v ",
    b"collect v 1_0",
    b"collect v 1000000000000000000",
    b"collect v 0 0",
    b"collect v 0 65",
    b"collect v 0 256",
    b"collect v 0 257",
    b"collect v 0 18446744073709551617",
    b"collect v 0 01",
    b"collect v 0 +1",
    b"collect v 0 -1",
    b"collect v 0 ",
    b"collect v 0  1",
    b"collect v 0 1 ",
    b"collect v 0 1 1",
    b"collect v 0 x",
    b"collect v 1000000000000000000 1",
    b"collect v 18446744073709551616",
    b"collect nnnnnnnnnnnnnnnnnnnnnnnnnnnnnnnnn 0",
    b"collect  0",
    b"collect v/ 0",
    b"collect v` 0",
    b"now 1000000000000000000",
    b"now",
    b"now 1 2",
    b"task v count 0 1",
    b"task v count 1000001 1",
    b"task v count 1 0",
    b"task v count 1 1000000001",
    b"task v count 1",
    b"task v count 1 1 1",
    b"task v count 1 1 expires",
    b"task v count 1 1 expires ",
    b"task v count 1 1 expires 1000000000000000000",
    b"task v count 1 1 expires 01",
    b"task v count 1 1 expires -1",
    b"task v count 1 1 expires 1 2",
    b"task v count 1 1 Expires 1",
    b"task v count 1 1 expires 1 expires 1",
    b"task v count 1 expires 1",
    b"task v count 1 1 1 expires 1",
    b"task v expires 1",
    b"task v count expires 1 1",
    b"task v vote 1 1",
    b"task v Count 1 1",
    b"task v",
    b"task v count",
    b"task v sum 0 1 1",
    b"task v sum 65 1 1",
    b"task v sum 256 1 1",
    b"task v sum 1 1",
    b"task v sum 320 1 1",
    b"task v histogram 1,1 1 1",
    b"task v histogram 2,1 1 1",
    b"task v histogram 1,,2 1 1",
    b"task v histogram ,1 1 1",
    b"task v histogram 1, 1 1",
    b"task v histogram  1 1",
    b"task v histogram 1 1",
    b"task v histogram 18446744073709551616 1 1",
    b"task v histogram 01 1 1",
    b"measure v 000102030405060708090a0b0c0d0e0f 1000000000000000000 0 000102030405060708090a0b0c0d0e0f",
    b"task v vector 0 1 1 1",
    b"task v vector 1025 1 1 1",
    b"task v vector 1 0 1 1",
    b"task v vector 1 33 1 1",
    b"task v vector 1024 2 1 1",
    b"task v vector 64 32 1 1",
    b"task v vector 65537 1 1 1",
    b"task v vector 1 257 1 1",
    b"task v vector 1 01 1 1",
    b"task v vector 1 1 1",
    b"task v vector 1 1 1 1 1",
    b"task v vector 1,1 1 1",
    b"measure v 000102030405060708090a0b0c0d0e0f 0 18446744073709551616 000102030405060708090a0b0c0d0e0f",
    b"measure v 000102030405060708090a0b0c0d0e0f 0 1,18446744073709551616 000102030405060708090a0b0c0d0e0f",
    b"measure v 000102030405060708090a0b0c0d0e0f 0 1, 000102030405060708090a0b0c0d0e0f",
    b"measure v 000102030405060708090a0b0c0d0e0f 0 ,1 000102030405060708090a0b0c0d0e0f",
    b"measure v 000102030405060708090a0b0c0d0e0f 0 1,,2 000102030405060708090a0b0c0d0e0f",
    b"measure v 000102030405060708090a0b0c0d0e0f 0 1,02 000102030405060708090a0b0c0d0e0f",
    b"measure v 000102030405060708090a0b0c0d0e0 0 0 000102030405060708090a0b0c0d0e0f",
    b"measure v 000102030405060708090a0b0c0d0e0f0 0 0 000102030405060708090a0b0c0d0e0f",
    b"measure v 000102030405060708090a0b0c0d0e0f 0 0 000102030405060708090a0b0c0d0e",
    b"measure v 000102030405060708090a0b0c0d0e0f 0 0 000102030405060708090a0b0c0d0e0f00",
    b"measure v 000102030405060708090a0b0c0d0e0F 0 0 000102030405060708090a0b0c0d0e0f",
    b"measure v 000102030405060708090a0b0c0d0e0f 0 0 000102030405060708090a0b0c0d0e0g",
    b"measure v 000102030405060708090a0b0c0d0e0f 0 0",
    b"measure v 000102030405060708090a0b0c0d0e0f 0 0 000102030405060708090a0b0c0d0e0f 0",
    b"measure v 000102030405060708090a0b0c0d0e`0 0 0 000102030405060708090a0b0c0d0e0f",
    b"upload Zg=",
    b"upload Zg",
    b"upload Zh==",
    b"upload Zm9=",
    b"upload ",
    b"upload",
    b"upload ====",
    b"upload Zg== Zg==",
    b"upload Z-_v",
    b"restart both",
    b"restart Leader",
    b"restart leader helper",
    b"restart",
    b"end",
];

/// Texts, and the line that is refused, or 0 where none is.
const SCRIPTS: [(&[u8], u32); 11] = [
    (b"", 0),
    (b"\n\r\n#\n# a \xc2", 4),
    (b"\n\r", 2),
    (b"\r\r\n", 1),
    (b" \n", 1),
    (b"collect v 0 \n", 1),
    (b"collect  v 0\n", 1),
    (b"task v count 1 1\nmeasure w 0 0 0 0\ntask v count 1 1", 2),
    (
        b"task v histogram 1 1 1\ntask w count 1 1\n\ntask v sum 1 1 1\nx",
        4,
    ),
    (
        b"task v count 1 1\ntask w count 1 1\ntask x count 1 1\ntask w sum 1 1 1\n",
        4,
    ),
    (b"now 1\nnow 2\nnow 3\nnow 03\nnow 4", 4),
];

fn name(text: &[u8]) -> Result<Name, Fail> {
    Ok(Name::new(text).ok_or("a name")?)
}

fn task(
    text: &[u8],
    kind: Kind,
    min: u32,
    precision: u32,
    expires: Option<u64>,
) -> Result<Line, Fail> {
    Ok(Line::Task {
        name: name(text)?,
        kind,
        min,
        precision,
        expires,
    })
}

fn collection(name: Name, start: u64, buckets: u8) -> Line {
    Line::Collect {
        name,
        span: Span { start, buckets },
    }
}

/// A measurement of the time and these numbers, under the name and with the identifier and the seed of all of them.
fn measurement(alloc: Global, text: &[u8], time: u64, numbers: &[u64]) -> Result<Line, Fail> {
    let mut seed = [255; 16];
    seed[15] = 0;
    Ok(Line::Measure {
        name: name(text)?,
        id: [0, 1, 2, 3, 4, 5, 6, 7, 8, 9, 10, 11, 12, 13, 14, 15],
        time,
        value: Measurement::new(Vec::from_slice(alloc, numbers)?),
        seed,
    })
}

#[test]
fn a_script_is_its_lines(rt: HostRuntime) -> Result<(), Fail> {
    let alloc = rt.alloc();
    let v = name(b"v")?;
    let bounds = Bounds::new(Vec::from_slice(alloc, &[0, 10, u64::MAX])?);
    let report = Bytes::new(Vec::from_slice(alloc, b"fo")?);
    let expected = [
        Line::Blank,
        task(b"v", Kind::Count, 3, 3600, None)?,
        Line::Blank,
        task(
            b"s-1",
            Kind::Sum { bits: 64 },
            1_000_000,
            1_000_000_000,
            Some(999_999_999_999_999_999),
        )?,
        task(b"h_", Kind::Histogram { bounds }, 1, 1, None)?,
        task(b"w", Kind::Vector { len: 63, bits: 32 }, 1, 1, None)?,
        Line::Now {
            t: 999_999_999_999_999_999,
        },
        measurement(alloc, b"v", 10, &[u64::MAX])?,
        measurement(alloc, b"w", 11, &[3, 0, u64::MAX])?,
        Line::Upload { report },
        collection(v, 7200, 1),
        collection(v, 7200, 1),
        collection(v, 7200, 2),
        collection(v, 7200, 64),
        Line::Restart { node: Node::Leader },
        Line::Restart { node: Node::Helper },
    ];
    assert!(rt; read_script(alloc, TEXT)?.as_slice() == expected.as_slice());
    Ok(())
}

/// The line that is refused, or 0.
fn refused_line(alloc: Global, text: &[u8]) -> Result<u32, AllocError>
    requires { length text.now ≤ LONGEST_SCRIPT }
{
    match read_script(alloc, text) {
        Ok(_) => Ok(0),
        Err(ScriptFault::Refused { line }) => Ok(line),
        Err(ScriptFault::NoMemory) => Err(AllocError),
    }
}

#[test]
fn lines_are_read_or_refused(rt: HostRuntime) -> Result<(), Fail> {
    for text in TAKEN {
        if text.len() <= LONGEST_SCRIPT {
            assert_eq!(rt; refused_line(rt.alloc(), text)?, 0);
        }
    }
    for text in REFUSED {
        if text.len() <= LONGEST_SCRIPT {
            assert_eq!(rt; refused_line(rt.alloc(), text)?, 1);
        }
    }
    Ok(())
}

/// A line with so many numbers between two texts, but at least one: 0, 1, 2 and so on.
fn line_of_numbers(alloc: Global, front: &str, size: u32, back: &str) -> Result<String, Fail> {
    let mut line = String::from_str(alloc, front)?;
    line.push_str("0")?;
    for number in 1..size {
        line.push_str(format!(in alloc; ",{number}")?.as_str())?;
    }
    line.push_str(back)?;
    Ok(line)
}

#[test]
fn a_histogram_has_at_most_1023_bounds(rt: HostRuntime) -> Result<(), Fail> {
    let alloc = rt.alloc();
    for (size, refused) in [(64, 0), (1023, 0), (1024, 1)] {
        let line = line_of_numbers(alloc, "task v histogram ", size, " 1 1")?;
        if line.len() <= LONGEST_SCRIPT {
            assert_eq!(rt;
                refused_line(alloc, line.as_bytes())?,
                refused,
                "{size} bounds"
            );
        }
    }
    Ok(())
}

#[test]
fn a_measurement_has_at_most_1024_numbers(rt: HostRuntime) -> Result<(), Fail> {
    let alloc = rt.alloc();
    let front = "measure v 000102030405060708090a0b0c0d0e0f 0 ";
    let back = " 000102030405060708090a0b0c0d0e0f";
    for (size, refused) in [(2, 0), (1024, 0), (1025, 1)] {
        let line = line_of_numbers(alloc, front, size, back)?;
        if line.len() <= LONGEST_SCRIPT {
            assert_eq!(rt;
                refused_line(alloc, line.as_bytes())?,
                refused,
                "{size} numbers"
            );
        }
    }
    Ok(())
}

#[test]
fn the_first_line_that_does_not_fit_is_refused(rt: HostRuntime) -> Result<(), Fail> {
    for (text, line) in SCRIPTS {
        if text.len() <= LONGEST_SCRIPT {
            assert_eq!(rt; refused_line(rt.alloc(), text)?, line);
        }
    }
    Ok(())
}

#[test]
fn faults_are_told_in_words(rt: HostRuntime) -> Result<(), Fail> {
    let texts = [
        (ScriptFault::Refused { line: 7 }, "line 7 is refused"),
        (ScriptFault::NoMemory, "no memory"),
    ];
    for (fault, text) in texts {
        assert_eq!(rt; fault.to_string(rt.alloc())?.as_str(), text);
    }
    Ok(())
}

#[test]
fn a_task_has_none_of_the_names_that_are_given(rt: HostRuntime) -> Result<(), Fail> {
    let alloc = rt.alloc();
    let names = [name(b"t")?, name(b"u")?, name(b"v")?, name(b"w")?];
    let text = b"task x count 1 1\ncollect w 0\ntask w count 1 1\n";
    for known in 0..4 {
        assert!(rt; read_script_beside(alloc, &names[..known], text).is_ok());
    }
    assert_eq!(rt;
        read_script_beside(alloc, &names, text).err(),
        Some(ScriptFault::Refused { line: 3 })
    );
    Ok(())
}

#[test]
fn lines_are_counted_by_their_ends(rt: HostRuntime) {
    let cases: [(&[u8], u32); 6] = [
        (b"", 0),
        (b"a", 1),
        (b"a\n", 1),
        (b"\n", 1),
        (b"a\n\r", 2),
        (b"\n\n\nb", 4),
    ];
    for (text, lines) in cases {
        assert!(rt; !is_longer(text, lines));
        assert_eq!(rt; lines > 0 && is_longer(text, lines - 1), lines > 0);
    }
}

#[test]
fn a_task_is_printed_as_its_line(rt: HostRuntime) -> Result<(), Fail> {
    let alloc = rt.alloc();
    let mut out = Vec::from_slice(alloc, b"# tasks\n")?;
    let bounds = Bounds::new(Vec::from_slice(alloc, &[0, 10, u64::MAX])?);
    let tasks = [
        (b"v".as_slice(), Kind::Count, 3, 3600, None),
        (b"s-1", Kind::Sum { bits: 64 }, 1, 1, Some(0)),
        (
            b"h",
            Kind::Histogram { bounds },
            7,
            20,
            Some(999_999_999_999_999_999),
        ),
        (b"w", Kind::Vector { len: 1024, bits: 1 }, 2, 1, Some(9)),
    ];
    for (text, kind, min, precision, expires) in &tasks {
        print_task(
            alloc,
            &name(text)?,
            kind,
            *min,
            *precision,
            *expires,
            &mut out,
        )?;
    }
    assert_eq!(rt;
        out.as_slice(),
        b"# tasks
task v count 3 3600
task s-1 sum 64 1 1 expires 0
task h histogram 0,10,18446744073709551615 7 20 expires 999999999999999999
task w vector 1024 1 2 1 expires 9
"
            .as_slice()
    );
    Ok(())
}

#[test]
fn batches_are_printed_with_their_buckets_where_they_are_several(
    rt: HostRuntime,
) -> Result<(), Fail> {
    let alloc = rt.alloc();
    let mut out = Vec::new(alloc);
    for (start, buckets) in [(0, 1), (7200, 2), (999_999_999_999_999_999, 64)] {
        put_span(alloc, &mut out, &Span { start, buckets })?;
        out.push(b';')?;
    }
    put_number(alloc, &mut out, u128::MAX)?;
    assert_eq!(rt;
        out.as_slice(),
        b"0;7200 2;999999999999999999 64;340282366920938463463374607431768211455".as_slice()
    );
    Ok(())
}
