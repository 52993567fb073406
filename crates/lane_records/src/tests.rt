use super::*;
use dap_messages::{ReadFault, Spelled};
use std::alloc::Global;
use std::test::Fail;

mod values;

// A record of each form, field by field, with the task `v`, the job 2, 3, 4, the start 3,600 and two reports.
const LEADER_OPEN: &[u8] = b"\x01\x01\x04\x03";

const ACCEPT: &[u8] =
    b"\x02\x01vthe first report\0\0\0\0\0\0\0\x0a\0\0\0\0\0\0\0\0\0\x03one\0\0\0\x03two";

const CONTINUE: &[u8] =
    b"\x03\x01v\x03\x02\0\0\0\0\0\0\0\x03\0\0\0\0\0\0\0\x04\0\x02the first report\0\0\0\0\x04prepthe other report\x02\x05";

const FINISH: &[u8] =
    b"\x04\x02\0\0\0\0\0\0\0\x03\0\0\0\0\0\0\0\x04\0\x02the first report\x01\0\0\0\x03outthe other report\x02\x01";

const LEADER_CLOSE: &[u8] =
    b"\x05\x01v\0\0\0\0\0\0\x0e\x10\0\0\0\x02\0\0\0\x01the checksum of the identifiers.\0\0\0\x03sum";

const HELPER_OPEN: &[u8] = b"\x11\x01\x04\x03";

const START: &[u8] =
    b"\x12\x01\x02\0\0\0\0\0\0\0\x03\0\0\0\0\0\0\0\x04\x01v\0\x01the first report\0\0\0\0\0\0\0\x0a\0\0\0\0\0\0\0\x03two";

const COMMIT: &[u8] =
    b"\x13\x02\0\0\0\0\0\0\0\x03\0\0\0\0\0\0\0\x04\0\x02the first report\x01\0\0\0\x03outthe other report\x02\x01";

const HELPER_CLOSE: &[u8] =
    b"\x14\x01v\0\0\0\0\0\0\x0e\x10\0\0\0\x02\0\0\0\x01the checksum of the identifiers.\0\0\0\x03sum";

const LEADER_FRONT_OPEN: &[u8] = b"\x21\x01\x04";

const LEADER_TASK: &[u8] =
    b"\x22\x01v\x01\x08\0\0\0\x0a\0\0\x0e\x10the verify key..the cipher key..the key of tags.";

const ASK: &[u8] = b"\x23\x01v\0\0\0\0\0\0\x0e\x10";

const LEADER_ANSWER: &[u8] =
    b"\x24\x01v\0\0\0\0\0\0\x0e\x10\0\0\0\x02\0\0\0\x01\0\0\0\x03one\0\0\0\x03two";

const HELPER_FRONT_OPEN: &[u8] = b"\x31\x01\x04";

const HELPER_TASK: &[u8] =
    b"\x32\x01v\x02\x02\0\0\0\0\0\0\0\x05\0\0\0\0\0\0\0\x09\0\0\0\x0a\0\0\x0e\x10the verify key..the cipher key..the key of tags.";

const HELPER_ANSWER: &[u8] =
    b"\x34\x05\x01v\0\0\0\0\0\0\x0e\x10\0\0\0\x02the checksum of the identifiers.\x06\x01v\0\0\0\0\0\0\x0e\x10\0\0\0\0\x03two";

/// One of each form, in the order of their first bytes.
const RECORDS: [&[u8]; 16] = [
    LEADER_OPEN,
    ACCEPT,
    CONTINUE,
    FINISH,
    LEADER_CLOSE,
    HELPER_OPEN,
    START,
    COMMIT,
    HELPER_CLOSE,
    LEADER_FRONT_OPEN,
    LEADER_TASK,
    ASK,
    LEADER_ANSWER,
    HELPER_FRONT_OPEN,
    HELPER_TASK,
    HELPER_ANSWER,
];

// Tasks of format 2: one that never expires, and one with an expiry.
const LEADER_TASK_TWO: &[u8] =
    b"\x27\x01v\x01\x08\0\0\0\x0a\0\0\x0e\x10\0the verify key..the cipher key..the key of tags.";

const HELPER_TASK_TWO: &[u8] =
    b"\x37\x01v\x02\0\x02\0\0\0\0\0\0\0\x05\0\0\0\0\0\0\0\x09\0\0\0\x0a\0\0\x0e\x10\x01\0\0\0\0\0\0\0\x32the verify key..the cipher key..the key of tags.";

const VECTOR_TASK: &[u8] =
    b"\x27\x01v\x03\0\x03\x08\0\0\0\x0a\0\0\x0e\x10\0the verify key..the cipher key..the key of tags.";

// For a batch of several buckets: 3 from 3,600 on.
const ASK_WIDE: &[u8] = b"\x25\x01v\0\0\0\0\0\0\x0e\x10\x03";

const ANSWER_WIDE: &[u8] =
    b"\x26\x01v\0\0\0\0\0\0\x0e\x10\x03\0\0\0\x02\0\0\0\x01\0\0\0\x03one\0\0\0\x03two";

const EXCHANGE_WIDE: &[u8] =
    b"\x34\x07\x01v\0\0\0\0\0\0\x0e\x10\x03\0\0\0\x02the checksum of the identifiers.\x08\x01v\0\0\0\0\0\0\x0e\x10\x03\0\0\0\0\x03two";

/// Further records, at the ends of ranges, of format 2 and with the other alternatives.
const OTHERS: [&[u8]; 19] = [
    ASK_WIDE,
    ANSWER_WIDE,
    EXCHANGE_WIDE,
    b"\x25\x01v\0\0\0\0\0\0\0\0\x40",
    b"\x01\x02\x04\x03",
    b"\x11\x02\x04\x03",
    b"\x21\x02\x04",
    b"\x31\x02\x04",
    LEADER_TASK_TWO,
    HELPER_TASK_TWO,
    VECTOR_TASK,
    b"\x37\x01v\0\0\0\0\x01\0\0\0\x01\x01\x0d\xe0\xb6\xb3\xa7\x63\xff\xffthe verify key..the cipher key..the key of tags.",
    b"\x22\x01v\0\0\0\0\x01\0\0\0\x01the verify key..the cipher key..the key of tags.",
    b"\x32\x20a-name_of-32-characters-01234567\x01\x40\0\x0f\x42\x40\x3b\x9a\xca\0the verify key..the cipher key..the key of tags.",
    b"\x22\x01v\x01\x01\0\0\0\x01\0\0\0\x01the verify key..the cipher key..the key of tags.",
    b"\x32\x01v\x02\x01\xff\xff\xff\xff\xff\xff\xff\xff\0\0\0\x01\0\0\0\x01the verify key..the cipher key..the key of tags.",
    b"\x23\x01v\x0d\xe0\xb6\xb3\xa7\x63\xff\xff",
    b"\x34\x05\x01v\0\0\0\0\0\0\x0e\x10\0\0\0\x02the checksum of the identifiers.\x06\x01v\0\0\0\0\0\0\x0e\x10\x01\0\0\0\x09",
    b"\x34\x05\x01v\0\0\0\0\0\0\x0e\x10\0\0\0\x02the checksum of the identifiers.\x06\x01v\0\0\0\0\0\0\x0e\x10\x02\0\0\0\x09the checksum of the identifiers.",
];

/// A time that is too late by one.
const LATE: &[u8] = b"\x0d\xe0\xb6\xb3\xa7\x64\0\0";

/// Faults: a record, from which place on its bytes are replaced and by which, and the place that is named.
const FAULTS: [(&[u8], usize, &[u8], usize); 86] = [
    (LEADER_OPEN, 0, b"\0", 0),
    (LEADER_OPEN, 0, b"\x06", 0),
    (LEADER_OPEN, 0, b"\x10", 0),
    (LEADER_OPEN, 0, b"\x15", 0),
    (LEADER_OPEN, 0, b"\x20", 0),
    (LEADER_OPEN, 0, b"\x28", 0),
    (LEADER_OPEN, 0, b"\x30", 0),
    (LEADER_OPEN, 0, b"\x33", 0),
    (LEADER_OPEN, 0, b"\x35", 0),
    (LEADER_OPEN, 1, b"\0", 1),
    (HELPER_OPEN, 1, b"\x03", 1),
    (LEADER_FRONT_OPEN, 1, b"\x03", 1),
    (HELPER_FRONT_OPEN, 1, b"\0", 1),
    (ACCEPT, 1, b"\0", 1),
    (ACCEPT, 1, b"\x21", 1),
    (ACCEPT, 2, b"V", 2),
    (ACCEPT, 19, LATE, 19),
    (ACCEPT, 27, b"\0\x01", 27),
    (CONTINUE, 3, b"\x02", 3),
    (CONTINUE, 21, b"\0\0", 21),
    (CONTINUE, 21, b"\0\x41", 21),
    (CONTINUE, 39, b"\x01", 39),
    (CONTINUE, 40, b"\0\0\x04\x01", 40),
    (CONTINUE, 48, b"the first report", 48),
    (CONTINUE, 48, b"the extra report", 48),
    (CONTINUE, 65, b"\x03", 65),
    (FINISH, 36, b"\0", 36),
    (FINISH, 37, b"\0\0\x40\x01", 37),
    (FINISH, 37, b"\0\0\0\x19", 62),
    (FINISH, 60, b"\x03", 60),
    (FINISH, 61, b"\x02", 61),
    (LEADER_CLOSE, 3, LATE, 3),
    (LEADER_CLOSE, 51, b"\0\0\x40\x01", 51),
    (LEADER_CLOSE, 51, b"\0\0\0\x02", 57),
    (LEADER_CLOSE, 51, b"\0\0\0\x04", 58),
    (START, 1, b"\x02", 1),
    (START, 19, b"\0", 19),
    (START, 39, LATE, 39),
    (START, 47, b"\0\0\x7d\x01", 47),
    (COMMIT, 44, b"the first report", 44),
    (HELPER_CLOSE, 3, b"\xff\xff\xff\xff\xff\xff\xff\xff", 3),
    (LEADER_TASK, 3, b"\x03", 3),
    (LEADER_TASK, 4, b"\0", 4),
    (LEADER_TASK, 4, b"\x41", 4),
    (LEADER_TASK, 5, b"\0\0\0\0", 5),
    (LEADER_TASK, 5, b"\0\x0f\x42\x41", 5),
    (LEADER_TASK, 9, b"\0\0\0\0", 9),
    (LEADER_TASK, 9, b"\x3b\x9a\xca\x01", 9),
    (HELPER_TASK, 4, b"\0", 4),
    (HELPER_TASK, 4, b"\x40", 4),
    (HELPER_TASK, 13, b"\0\0\0\0\0\0\0\x05", 13),
    (HELPER_TASK, 13, b"\0\0\0\0\0\0\0\x04", 13),
    (LEADER_TASK_TWO, 13, b"\x02", 13),
    (LEADER_TASK_TWO, 13, b"\x01\xff", 14),
    (HELPER_TASK_TWO, 4, b"\0\0", 4),
    (HELPER_TASK_TWO, 4, b"\x04\0", 4),
    (HELPER_TASK_TWO, 4, b"\0\x01", 14),
    (HELPER_TASK_TWO, 14, b"\0\0\0\0\0\0\0\x05", 14),
    (HELPER_TASK_TWO, 30, b"\x02", 30),
    (HELPER_TASK_TWO, 31, LATE, 31),
    (LEADER_TASK_TWO, 3, b"\x04", 3),
    (VECTOR_TASK, 4, b"\0\0", 4),
    (VECTOR_TASK, 4, b"\x04\x01\x01", 4),
    (VECTOR_TASK, 4, b"\x04\0\x02", 6),
    (VECTOR_TASK, 4, b"\0\x40\x20", 6),
    (VECTOR_TASK, 6, b"\0", 6),
    (VECTOR_TASK, 6, b"\x21", 6),
    (LEADER_TASK, 3, b"\x03\0\x01\x01", 3),
    (ASK, 3, LATE, 3),
    (ASK_WIDE, 3, LATE, 3),
    (ASK_WIDE, 11, b"\0", 11),
    (ASK_WIDE, 11, b"\x01", 11),
    (ASK_WIDE, 11, b"\x41", 11),
    (ANSWER_WIDE, 11, b"\x01", 11),
    (ANSWER_WIDE, 11, b"\x41", 11),
    (EXCHANGE_WIDE, 12, b"\x01", 12),
    (EXCHANGE_WIDE, 49, b"\x07", 49),
    (EXCHANGE_WIDE, 60, b"\x01", 60),
    (LEADER_ANSWER, 19, b"\0\0\x40\x01", 19),
    (LEADER_ANSWER, 26, b"\0\0\x40\x01", 26),
    (HELPER_ANSWER, 1, b"\x06", 1),
    (HELPER_ANSWER, 4, LATE, 4),
    (HELPER_ANSWER, 48, b"\x05", 48),
    (HELPER_ANSWER, 51, LATE, 51),
    (HELPER_ANSWER, 59, b"\x03", 59),
    (HELPER_ANSWER, 60, b"\0\0\x40\x01", 60),
];

/// Fields of the greatest length: a record, where the field's length stands in it, how many bytes it has there, and how
/// many it may have.
const LONGEST: [(&[u8], usize, usize, u32); 15] = [
    (ACCEPT, 29, 0, 32_000),
    (ACCEPT, 33, 3, 131_072),
    (ACCEPT, 40, 3, 32_000),
    (CONTINUE, 40, 4, 1_024),
    (FINISH, 37, 3, 16_384),
    (LEADER_CLOSE, 51, 3, 16_384),
    (START, 47, 0, 32_000),
    (START, 51, 3, 32_000),
    (COMMIT, 37, 3, 16_384),
    (HELPER_CLOSE, 51, 3, 16_384),
    (LEADER_ANSWER, 19, 3, 16_384),
    (LEADER_ANSWER, 26, 3, 16_384),
    (ANSWER_WIDE, 20, 3, 16_384),
    (ANSWER_WIDE, 27, 3, 16_384),
    (HELPER_ANSWER, 60, 3, 16_384),
];

/// The place of the fault in a record, if it has one.
fn fault_of(alloc: Global, bytes: &[u8]) -> Result<Option<usize>, Fail> {
    match read_record(alloc, bytes) {
        Ok(_record) => Ok(None),
        Err(ReadFault::Form { at }) => Ok(Some(at)),
        Err(ReadFault::NoMemory) => Err("no memory".into()),
    }
}

/// A record's bytes, read and written again.
fn again(alloc: Global, bytes: &[u8]) -> Result<Vec<u8>, Fail> {
    match read_record(alloc, bytes) {
        Ok(record) => spelling(alloc, &record),
        Err(_) => Err("not a record".into()),
    }
}

fn spelling(alloc: Global, record: &Record) -> Result<Vec<u8>, Fail> {
    if !record.is_allowed() {
        return Err("not allowed".into());
    }
    Ok(write_record(alloc, record)?)
}

#[test]
fn each_form_is_read_and_written_again(rt: HostRuntime) -> Result<(), Fail> {
    let alloc = rt.alloc();
    for bytes in RECORDS.iter().chain(OTHERS.iter()) {
        assert_eq!(rt; again(alloc, bytes)?.as_slice(), *bytes);
    }
    Ok(())
}

#[test]
fn a_record_cut_or_longer_has_its_fault_at_its_end(rt: HostRuntime) -> Result<(), Fail> {
    let alloc = rt.alloc();
    for record in RECORDS.iter().chain(OTHERS.iter()) {
        let bytes = *record;
        for len in 0..bytes.len() {
            assert_eq!(rt; fault_of(alloc, &bytes[..len])?, Some(len));
        }
        let mut longer = bytes.to_vec(alloc)?;
        longer.push(0)?;
        assert_eq!(rt; fault_of(alloc, &longer)?, Some(bytes.len()));
    }
    Ok(())
}

/// The bytes with others in their place from `at` on.
fn replaced(alloc: Global, bytes: &[u8], at: usize, part: &[u8]) -> Result<Vec<u8>, Fail> {
    let mut out = Vec::new(alloc);
    for (index, byte) in bytes.iter().enumerate() {
        let other = match index.checked_sub(at) {
            Some(place) => part.get(place),
            None => None,
        };
        out.push(*other.unwrap_or(byte))?;
    }
    Ok(out)
}

#[test]
fn a_fault_is_named_by_the_first_place(rt: HostRuntime) -> Result<(), Fail> {
    let alloc = rt.alloc();
    for (bytes, at, part, place) in FAULTS {
        let changed = replaced(alloc, bytes, at, part)?;
        assert_eq!(rt; fault_of(alloc, &changed)?, Some(place));
    }
    Ok(())
}

/// A record with so many bytes in the field whose length stands at `at`, in place of `old` bytes.
fn with_length(
    alloc: Global,
    bytes: &[u8],
    at: usize,
    old: usize,
    len: u32,
) -> Result<Vec<u8>, Fail> {
    let mut out = Vec::new(alloc);
    for byte in bytes.iter().take(at).chain(len.to_be_bytes().iter()) {
        out.push(*byte)?;
    }
    for _ in 0..len {
        out.push(7)?;
    }
    for byte in bytes.iter().skip(at).skip(4).skip(old) {
        out.push(*byte)?;
    }
    Ok(out)
}

#[test]
fn fields_of_the_greatest_length_are_read(rt: HostRuntime) -> Result<(), Fail> {
    let alloc = rt.alloc();
    for (bytes, at, old, longest) in LONGEST {
        let text = with_length(alloc, bytes, at, old, longest)?;
        assert_eq!(rt; again(alloc, &text)?.as_slice(), text.as_slice());
        let longer = with_length(alloc, bytes, at, old, longest.wrapping_add(1))?;
        assert_eq!(rt; fault_of(alloc, &longer)?, Some(at));
    }
    Ok(())
}

/// A helper's task of a histogram with so many bounds: 0 and on.
fn with_bounds(alloc: Global, format: Format, count: u16) -> Result<Vec<u8>, Fail> {
    let (task, fields, after) = match format {
        Format::One => (HELPER_TASK, 4, 21),
        Format::Two => (HELPER_TASK_TWO, 4, 22),
    };
    let mut out = Vec::new(alloc);
    for byte in task.iter().take(fields) {
        out.push(*byte)?;
    }
    let size = count.to_be_bytes();
    match format {
        Format::One => out.push(size[1])?,
        Format::Two => out.extend_from_slice(&size)?,
    }
    for bound in 0..count {
        for byte in u64::from(bound).to_be_bytes() {
            out.push(byte)?;
        }
    }
    for byte in task.iter().skip(after) {
        out.push(*byte)?;
    }
    Ok(out)
}

#[test]
fn a_vector_has_at_most_2047_bits(rt: HostRuntime) -> Result<(), Fail> {
    let alloc = rt.alloc();
    for sizes in [
        [0, 1, 1],
        [0, 1, 32],
        [4, 0, 1],
        [3, 255, 2],
        [0, 63, 32],
        [0, 89, 23],
    ] {
        let text = replaced(alloc, VECTOR_TASK, 4, &sizes)?;
        assert_eq!(rt; again(alloc, &text)?.as_slice(), text.as_slice());
    }
    Ok(())
}

#[test]
fn a_task_has_1_to_63_bounds_or_1_to_1023_in_format_2(rt: HostRuntime) -> Result<(), Fail> {
    let alloc = rt.alloc();
    for (format, count, fault) in [
        (Format::One, 0, Some(4)),
        (Format::One, 1, None),
        (Format::One, 63, None),
        (Format::One, 64, Some(4)),
        (Format::Two, 0, Some(4)),
        (Format::Two, 1, None),
        (Format::Two, 64, None),
        (Format::Two, 1023, None),
        (Format::Two, 1024, Some(4)),
    ] {
        let text = with_bounds(alloc, format, count)?;
        assert_eq!(rt; fault_of(alloc, &text)?, fault, "{count} bounds");
    }
    Ok(())
}

/// What a reader of these byte strings answers: how many records, or its fault.
fn journal_of(alloc: Global, texts: &[&[u8]]) -> Result<Result<usize, RecordsFault>, Fail> {
    let mut copies = Vec::new(alloc);
    for text in texts {
        copies.push(text.to_vec(alloc)?)?;
    }
    Ok(read_records(alloc, &copies).map(|records| records.len()))
}

#[test]
fn a_journal_is_read_at_once(rt: HostRuntime) -> Result<(), Fail> {
    let alloc = rt.alloc();
    assert_eq!(rt; journal_of(alloc, &[])?, Ok(0));
    assert_eq!(rt; journal_of(alloc, &RECORDS)?, Ok(16));
    assert_eq!(rt;
        journal_of(alloc, &[LEADER_OPEN, ASK, b"\x21\x03\x04", b""])?,
        Err(RecordsFault::Form { entry: 2, at: 1 })
    );
    assert_eq!(rt;
        journal_of(alloc, &[b"", LEADER_OPEN])?,
        Err(RecordsFault::Form { entry: 0, at: 0 })
    );
    assert_eq!(rt;
        journal_of(alloc, &[LEADER_OPEN, b"\0", b""])?,
        Err(RecordsFault::Form { entry: 1, at: 0 })
    );
    Ok(())
}

#[test]
fn faults_are_printed(rt: HostRuntime) -> Result<(), Fail> {
    let alloc = rt.alloc();
    let form = RecordsFault::Form { entry: 2, at: 1 };
    assert_eq!(rt;
        format!(in alloc; "{form}")?.as_str(),
        "record 2 is not of the form at byte 1"
    );
    assert_eq!(rt;
        format!(in alloc; "{}", RecordsFault::NoMemory)?.as_str(),
        "no memory"
    );
    for (fault, text) in [
        (LaneFault::Stopped, "the lane's disk stopped"),
        (LaneFault::NoMemory, "no memory"),
    ] {
        assert_eq!(rt; format!(in alloc; "{fault}")?.as_str(), text);
    }
    for (fault, text) in [
        (FrontFault::Stopped, "the front's disk stopped"),
        (FrontFault::NoMemory, "no memory"),
    ] {
        assert_eq!(rt; format!(in alloc; "{fault}")?.as_str(), text);
    }
    Ok(())
}
