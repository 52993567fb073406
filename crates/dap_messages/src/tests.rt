use super::*;
use dap_bytes::{Name, Span};
use std::alloc::Global;
use std::test::Fail;

/// The InitReq of the job 0, 1, 0 for the task `v` with one report: identifier zero, time 10, empty parts.
const INIT_REQ: [u8; 54] = [
    1, 0, 0, 0, 0, 0, 0, 0, 0, 1, 0, 0, 0, 0, 0, 0, 0, 0, 1, 0x76, 0, 1, 0, 0, 0, 0, 0, 0, 0, 0, 0,
    0, 0, 0, 0, 0, 0, 0, 0, 0, 0, 0, 0, 0, 0, 10, 0, 0, 0, 0, 0, 0, 0, 0,
];

/// Where it has a fault with a byte replaced by ff, by hand: the byte and the place. With any other byte replaced it
/// has none.
const FAULTS: [(usize, usize); 14] = [
    (0, 0),
    (18, 18),
    (19, 19),
    (20, 20),
    (21, 20),
    (38, 38),
    (46, 46),
    (47, 46),
    (48, 46),
    (49, 54),
    (50, 50),
    (51, 50),
    (52, 50),
    (53, 54),
];

/// A report of the task `v`: identifier 1, time 10, no public share, the shares `ab` and `c`. These bytes and the
/// places below are those of the plain second writing of the formats.
const REPORT: [u8; 43] = [
    1, 0x76, 0, 0, 0, 0, 0, 0, 0, 0, 0, 0, 0, 0, 0, 0, 0, 1, 0, 0, 0, 0, 0, 0, 0, 10, 0, 0, 0, 0,
    0, 0, 0, 0, 0, 2, 0x61, 0x62, 0, 0, 0, 1, 0x63,
];

const REPORT_FAULTS: [(usize, usize); 15] = [
    (0, 0),
    (1, 1),
    (18, 18),
    (26, 26),
    (27, 26),
    (28, 28),
    (29, 28),
    (30, 28),
    (31, 43),
    (32, 32),
    (33, 32),
    (34, 43),
    (35, 43),
    (38, 38),
    (39, 38),
];

/// The other forms, each with the job 2, 3, 4 or the task `a`, by hand.
const INIT_RESP: [u8; 62] = [
    2, 2, 0, 0, 0, 0, 0, 0, 0, 3, 0, 0, 0, 0, 0, 0, 0, 4, 0, 2, 1, 0, 0, 0, 0, 0, 0, 0, 0, 0, 0, 0,
    0, 0, 0, 0, 0, 0, 0, 0, 3, 7, 8, 9, 2, 0, 0, 0, 0, 0, 0, 0, 0, 0, 0, 0, 0, 0, 0, 0, 2, 5,
];

const CONT_RESP: [u8; 55] = [
    4, 2, 0, 0, 0, 0, 0, 0, 0, 3, 0, 0, 0, 0, 0, 0, 0, 4, 0, 2, 1, 0, 0, 0, 0, 0, 0, 0, 0, 0, 0, 0,
    0, 0, 0, 0, 1, 2, 0, 0, 0, 0, 0, 0, 0, 0, 0, 0, 0, 0, 0, 0, 0, 2, 0,
];

const SHARE_REQ: [u8; 47] = [
    5, 1, 0x61, 0, 0, 0, 0, 0, 0, 0x0e, 0x10, 0, 0, 0, 3, 1, 2, 3, 4, 5, 6, 7, 8, 9, 10, 11, 12,
    13, 14, 15, 16, 17, 18, 19, 20, 21, 22, 23, 24, 25, 26, 27, 28, 29, 30, 31, 32,
];

const SHARE_RESP: [u8; 48] = [
    6, 1, 0x61, 0, 0, 0, 0, 0, 0, 0x0e, 0x10, 2, 0, 0, 0, 3, 1, 2, 3, 4, 5, 6, 7, 8, 9, 10, 11, 12,
    13, 14, 15, 16, 17, 18, 19, 20, 21, 22, 23, 24, 25, 26, 27, 28, 29, 30, 31, 32,
];

/// The same of a batch of 3 buckets, and of 64.
const WIDE_REQ: [u8; 48] = [
    7, 1, 0x61, 0, 0, 0, 0, 0, 0, 0x0e, 0x10, 3, 0, 0, 0, 3, 1, 2, 3, 4, 5, 6, 7, 8, 9, 10, 11, 12,
    13, 14, 15, 16, 17, 18, 19, 20, 21, 22, 23, 24, 25, 26, 27, 28, 29, 30, 31, 32,
];

const WIDE_RESP: [u8; 49] = [
    8, 1, 0x61, 0, 0, 0, 0, 0, 0, 0x0e, 0x10, 64, 2, 0, 0, 0, 3, 1, 2, 3, 4, 5, 6, 7, 8, 9, 10, 11,
    12, 13, 14, 15, 16, 17, 18, 19, 20, 21, 22, 23, 24, 25, 26, 27, 28, 29, 30, 31, 32,
];

/// Their faults, as above.
const WIDE_REQ_FAULTS: [(usize, usize); 5] = [(0, 0), (1, 1), (2, 2), (3, 3), (11, 11)];

const WIDE_RESP_FAULTS: [(usize, usize); 6] = [(0, 0), (1, 1), (2, 2), (3, 3), (11, 11), (12, 12)];

/// That the helper has 2 reports of the batch of `a` at 0.
const SMALL: [u8; 16] = [6, 1, 0x61, 0, 0, 0, 0, 0, 0, 0, 0, 1, 0, 0, 0, 2];

/// The share `9` of the batch of `a` at 0.
const SHARE: [u8; 17] = [6, 1, 0x61, 0, 0, 0, 0, 0, 0, 0, 0, 0, 0, 0, 0, 1, 9];

/// The latest time, and the one behind it.
const LATEST: [u8; 8] = [0x0d, 0xe0, 0xb6, 0xb3, 0xa7, 0x63, 0xff, 0xff];

const LATE: [u8; 8] = [0x0d, 0xe0, 0xb6, 0xb3, 0xa7, 0x64, 0, 0];

/// The place of the fault in a message, if it has one.
fn fault_of(alloc: Global, bytes: &[u8]) -> Result<Option<usize>, Fail> {
    match read_message(alloc, bytes) {
        Ok(_message) => Ok(None),
        Err(ReadFault::Form { at }) => Ok(Some(at)),
        Err(ReadFault::NoMemory) => Err("no memory".into()),
    }
}

fn report_fault_of(alloc: Global, bytes: &[u8]) -> Result<Option<usize>, Fail> {
    match read_report(alloc, bytes) {
        Ok(_report) => Ok(None),
        Err(ReadFault::Form { at }) => Ok(Some(at)),
        Err(ReadFault::NoMemory) => Err("no memory".into()),
    }
}

/// The place that a table gives for a byte.
fn place_for(table: &[(usize, usize)], byte: usize) -> Option<usize> {
    table.iter().find(|row| row.0 == byte).map(|row| row.1)
}

/// A message's bytes, read and written again.
fn again(alloc: Global, bytes: &[u8]) -> Result<Vec<u8>, Fail> {
    match read_message(alloc, bytes) {
        Ok(message) => Ok(write_message(alloc, &message)?),
        Err(_) => Err("not a message".into()),
    }
}

/// The first length to which a message is cut without a fault at its end.
fn wrong_cut(alloc: Global, bytes: &[u8]) -> Result<Option<usize>, Fail> {
    for len in 0..bytes.len() {
        if fault_of(alloc, &bytes[..len])? != Some(len) {
            return Ok(Some(len));
        }
    }
    Ok(None)
}

/// The first byte of a message that replaced by ff has another fault than the table gives.
fn wrong_change(
    alloc: Global,
    bytes: &[u8],
    table: &[(usize, usize)],
) -> Result<Option<usize>, Fail> {
    for byte in 0..bytes.len() {
        let mut changed = bytes.to_vec(alloc)?;
        changed[byte] = 0xff;
        if fault_of(alloc, &changed)? != place_for(table, byte) {
            return Ok(Some(byte));
        }
    }
    Ok(None)
}

#[test]
fn a_message_cut_or_changed_names_the_first_fault(rt: HostRuntime) -> Result<(), Fail> {
    let alloc = rt.alloc();
    for (bytes, table) in [
        (INIT_REQ.as_slice(), FAULTS.as_slice()),
        (WIDE_REQ.as_slice(), WIDE_REQ_FAULTS.as_slice()),
        (WIDE_RESP.as_slice(), WIDE_RESP_FAULTS.as_slice()),
    ] {
        assert_eq!(rt; fault_of(alloc, bytes)?, None);
        assert_eq!(rt; wrong_cut(alloc, bytes)?, None);
        assert_eq!(rt; wrong_change(alloc, bytes, table)?, None);
        let mut longer = bytes.to_vec(alloc)?;
        longer.push(0)?;
        assert_eq!(rt; fault_of(alloc, &longer)?, Some(bytes.len()));
    }
    Ok(())
}

#[test]
fn a_wide_form_has_2_to_64_buckets(rt: HostRuntime) -> Result<(), Fail> {
    let alloc = rt.alloc();
    for bytes in [WIDE_REQ.as_slice(), WIDE_RESP.as_slice()] {
        for (buckets, place) in [
            (0, Some(11)),
            (1, Some(11)),
            (2, None),
            (64, None),
            (65, Some(11)),
        ] {
            let text = spliced(alloc, bytes, 11, &[buckets], 12)?;
            assert_eq!(rt; fault_of(alloc, &text)?, place, "{buckets} buckets");
        }
    }
    Ok(())
}

#[test]
fn a_batch_of_1_to_64_buckets_has_a_form(rt: HostRuntime) -> Result<(), Fail> {
    let alloc = rt.alloc();
    for (buckets, allowed, form) in [
        (0, false, Extent::Several),
        (1, true, Extent::Single),
        (2, true, Extent::Several),
        (64, true, Extent::Several),
        (65, false, Extent::Several),
    ] {
        let span = Span { start: 0, buckets };
        assert_eq!(rt; (is_span(&span), Extent::of(&span)), (allowed, form));
    }
    let Some(name) = Name::new(b"a") else {
        return Err("no name".into());
    };
    let span = Span {
        start: 3600,
        buckets: 2,
    };
    let request = ShareReq {
        name,
        span,
        count: 0,
        checksum: [0; 32],
    };
    let text = write_all(alloc, &request)?;
    assert_eq!(rt;
        &text.as_slice()[..12],
        [7, 1, 0x61, 0, 0, 0, 0, 0, 0, 0x0e, 0x10, 2].as_slice()
    );
    Ok(())
}

#[test]
fn a_report_cut_or_changed_names_the_first_fault(rt: HostRuntime) -> Result<(), Fail> {
    let alloc = rt.alloc();
    assert_eq!(rt; report_fault_of(alloc, &REPORT)?, None);
    for len in 0..REPORT.len() {
        assert_eq!(rt;
            report_fault_of(alloc, &REPORT[..len])?,
            Some(len),
            "cut at {len}"
        );
    }
    for byte in 0..REPORT.len() {
        let mut changed = REPORT;
        changed[byte] = 0xff;
        let place = match byte {
            40 => Some(38),
            41 => Some(43),
            _ => place_for(&REPORT_FAULTS, byte),
        };
        assert_eq!(rt; report_fault_of(alloc, &changed)?, place, "ff at {byte}");
    }
    match read_report(alloc, &REPORT) {
        Ok(report) => {
            assert_eq!(rt;
                (report.time, report.leader.as_slice()),
                (10, [0x61, 0x62].as_slice())
            );
            assert_eq!(rt; write_report(alloc, &report)?.as_slice(), REPORT.as_slice());
        }
        Err(_) => return Err("not a report".into()),
    }
    Ok(())
}

#[test]
fn each_form_is_read_and_written_again(rt: HostRuntime) -> Result<(), Fail> {
    let alloc = rt.alloc();
    let mut cont_req = INIT_RESP;
    cont_req[0] = 3;
    for bytes in [
        INIT_REQ.as_slice(),
        INIT_RESP.as_slice(),
        cont_req.as_slice(),
        CONT_RESP.as_slice(),
        SHARE_REQ.as_slice(),
        SHARE_RESP.as_slice(),
        WIDE_REQ.as_slice(),
        WIDE_RESP.as_slice(),
        SMALL.as_slice(),
        SHARE.as_slice(),
    ] {
        assert_eq!(rt; again(alloc, bytes)?.as_slice(), bytes);
    }
    Ok(())
}

/// The bytes up to a place, others, and from another place on.
fn spliced(
    alloc: Global,
    bytes: &[u8],
    at: usize,
    part: &[u8],
    from: usize,
) -> Result<Vec<u8>, Fail> {
    let mut out = Vec::new(alloc);
    for byte in bytes.iter().take(at).chain(part.iter()) {
        out.push(*byte)?;
    }
    for byte in bytes.iter().skip(from) {
        out.push(*byte)?;
    }
    Ok(out)
}

/// A length of four bytes, and that many bytes.
fn field(alloc: Global, len: u32) -> Result<Vec<u8>, Fail> {
    let mut out = len.to_be_bytes().to_vec(alloc)?;
    for _ in 0..len {
        out.push(7)?;
    }
    Ok(out)
}

#[test]
fn fields_of_the_greatest_length_are_read(rt: HostRuntime) -> Result<(), Fail> {
    let alloc = rt.alloc();
    for (bytes, at, from, longest) in [
        (INIT_REQ.as_slice(), 46, 50, 32_000),
        (INIT_REQ.as_slice(), 50, 54, 32_000),
        (INIT_RESP.as_slice(), 37, 44, 1_024),
        (SHARE.as_slice(), 12, 17, 16_384),
    ] {
        let text = spliced(alloc, bytes, at, &field(alloc, longest)?, from)?;
        assert_eq!(rt; again(alloc, &text)?.as_slice(), text.as_slice());
        let longer = spliced(
            alloc,
            bytes,
            at,
            &field(alloc, longest.wrapping_add(1))?,
            from,
        )?;
        assert_eq!(rt; fault_of(alloc, &longer)?, Some(at));
    }
    for (at, from, longest) in [(28, 32, 32_000), (32, 38, 131_072), (38, 43, 32_000)] {
        let text = spliced(alloc, &REPORT, at, &field(alloc, longest)?, from)?;
        assert_eq!(rt; report_fault_of(alloc, &text)?, None);
        let longer = spliced(
            alloc,
            &REPORT,
            at,
            &field(alloc, longest.wrapping_add(1))?,
            from,
        )?;
        assert_eq!(rt; report_fault_of(alloc, &longer)?, Some(at));
    }
    assert_eq!(rt; (MOST_REPORT, MOST_MESSAGE), (195_143, 4_194_304));
    Ok(())
}

#[test]
fn the_latest_time_is_read(rt: HostRuntime) -> Result<(), Fail> {
    let alloc = rt.alloc();
    for (bytes, at, from) in [
        (INIT_REQ.as_slice(), 38, 46),
        (SHARE_REQ.as_slice(), 3, 11),
        (SHARE_RESP.as_slice(), 3, 11),
        (WIDE_REQ.as_slice(), 3, 11),
        (WIDE_RESP.as_slice(), 3, 11),
    ] {
        let latest = spliced(alloc, bytes, at, &LATEST, from)?;
        assert_eq!(rt; again(alloc, &latest)?.as_slice(), latest.as_slice());
        let late = spliced(alloc, bytes, at, &LATE, from)?;
        assert_eq!(rt; fault_of(alloc, &late)?, Some(at));
    }
    let latest = spliced(alloc, &REPORT, 18, &LATEST, 26)?;
    assert_eq!(rt; report_fault_of(alloc, &latest)?, None);
    let late = spliced(alloc, &REPORT, 18, &LATE, 26)?;
    assert_eq!(rt; report_fault_of(alloc, &late)?, Some(18));
    Ok(())
}

#[test]
fn numbers_reach_both_ends(rt: HostRuntime) -> Result<(), Fail> {
    let alloc = rt.alloc();
    for (bytes, at, from) in [
        (INIT_REQ.as_slice(), 1, 18),
        (INIT_RESP.as_slice(), 1, 18),
        (CONT_RESP.as_slice(), 1, 18),
        (SHARE_REQ.as_slice(), 11, 15),
        (WIDE_REQ.as_slice(), 12, 16),
        (SMALL.as_slice(), 12, 16),
        (SHARE_RESP.as_slice(), 12, 16),
        (WIDE_RESP.as_slice(), 13, 17),
    ] {
        for byte in [0, 0xff] {
            let mut text = Vec::new(alloc);
            for (index, other) in bytes.iter().enumerate() {
                let within = at <= index && index < from;
                text.push(if within { byte } else { *other })?;
            }
            assert_eq!(rt;
                again(alloc, &text)?.as_slice(),
                text.as_slice(),
                "{byte} at {at}"
            );
        }
    }
    Ok(())
}

#[test]
fn a_half_has_its_shares_in_order(rt: HostRuntime) -> Result<(), Fail> {
    let alloc = rt.alloc();
    let shares = [0, 0, 0, 2, 0x61, 0x62, 0, 0, 0, 1, 0x63];
    let text = spliced(alloc, &INIT_REQ, 46, &shares, 54)?;
    let Ok(Message::InitReq(_, _, halves)) = read_message(alloc, &text) else {
        return Err("not a message".into());
    };
    let [one] = halves.as_slice() else {
        return Err("not one report".into());
    };
    assert_eq!(rt;
        (one.body.public.as_slice(), one.body.helper.as_slice()),
        ([0x61, 0x62].as_slice(), [0x63].as_slice())
    );
    Ok(())
}

#[test]
fn a_name_has_1_to_32_characters(rt: HostRuntime) -> Result<(), Fail> {
    let alloc = rt.alloc();
    for (len, place) in [(0, Some(18)), (1, None), (32, None), (33, Some(18))] {
        let mut name = Vec::new(alloc);
        name.push(len)?;
        for _ in 0..len {
            name.push(b'v')?;
        }
        let text = spliced(alloc, &INIT_REQ, 18, &name, 20)?;
        assert_eq!(rt; fault_of(alloc, &text)?, place, "{len} characters");
    }
    Ok(())
}

/// Whether a message that spells what the arrays above say has its fields in their order.
fn is_as_said(message: &Message) -> bool {
    let job = JobNo {
        lane: 2,
        incarnation: 3,
        counter: 4,
    };
    match message {
        Message::InitReq(first, name, halves) => {
            let [one] = halves.as_slice() else {
                return false;
            };
            (first.lane, first.incarnation, first.counter) == (0, 1, 0)
                && name.as_bytes() == b"v".as_slice()
                && one.id == [0; 16]
                && one.body.time == 10
        }
        Message::InitResp(of, steps) | Message::ContReq(of, steps) => {
            let [one, two] = steps.as_slice() else {
                return false;
            };
            let continued = match &one.body {
                Step::Continued(prep) => prep.as_slice() == [7, 8, 9].as_slice(),
                Step::Failed(_) => false,
            };
            *of == job && continued && matches!(two.body, Step::Failed(Code::VdafPrepError))
        }
        Message::ContResp(of, statuses) => {
            let [one, two] = statuses.as_slice() else {
                return false;
            };
            *of == job
                && one.body == Status::Finished
                && two.body == Status::Failed(Code::BatchCollected)
        }
        Message::ShareReq(request) => {
            is_of(&request.name, request.span) && is_counted(request.count, &request.checksum)
        }
        Message::ShareResp(response) => match &response.reply {
            Reply::Mismatch(count, checksum) => {
                is_of(&response.name, response.span) && is_counted(*count, checksum)
            }
            Reply::Share(share) => {
                response.span.start == 0 && share.as_slice() == [9].as_slice()
            }
            Reply::Small(_) => false,
        },
    }
}

/// Whether it is one of the batches of `a` at 3600 above.
fn is_of(name: &Name, span: Span) -> bool {
    name.as_bytes() == b"a".as_slice() && span.start == 3600 && matches!(span.buckets, 1 | 3 | 64)
}

fn is_counted(count: u32, checksum: &[u8; 32]) -> bool {
    count == 3 && checksum.as_slice() == &SHARE_REQ[15..]
}

#[test]
fn fields_are_in_their_order(rt: HostRuntime) -> Result<(), Fail> {
    let alloc = rt.alloc();
    for bytes in [
        INIT_REQ.as_slice(),
        INIT_RESP.as_slice(),
        CONT_RESP.as_slice(),
        SHARE_REQ.as_slice(),
        SHARE_RESP.as_slice(),
        WIDE_REQ.as_slice(),
        WIDE_RESP.as_slice(),
        SHARE.as_slice(),
    ] {
        match read_message(alloc, bytes) {
            Ok(message) => assert!(rt; is_as_said(&message)),
            Err(_) => return Err("not a message".into()),
        }
    }
    Ok(())
}

/// The outcomes of so many reports, all of them finished.
fn outcomes(alloc: Global, count: u8) -> Result<Vec<u8>, Fail> {
    let mut out = spliced(alloc, &CONT_RESP, 18, &[0, count], 55)?;
    for id in 0..count {
        out.extend_from_slice(&[id; 16])?;
        out.push(1)?;
    }
    Ok(out)
}

#[test]
fn a_job_has_1_to_64_reports(rt: HostRuntime) -> Result<(), Fail> {
    let alloc = rt.alloc();
    for (count, place) in [(0, Some(18)), (1, None), (64, None), (65, Some(18))] {
        let text = outcomes(alloc, count)?;
        assert_eq!(rt; fault_of(alloc, &text)?, place, "{count} reports");
    }
    Ok(())
}

#[test]
fn codes_have_their_bytes(rt: HostRuntime) {
    for byte in 0..=255 {
        let want = match byte {
            0 => Some(Code::BatchCollected),
            1 => Some(Code::ReportReplayed),
            4 => Some(Code::HpkeDecryptError),
            5 => Some(Code::VdafPrepError),
            _ => None,
        };
        let found = Code::of_byte(byte);
        assert_eq!(rt; found, want, "{byte}");
        if let Some(code) = found {
            assert_eq!(rt; code.byte(), byte);
        }
    }
}

#[test]
fn faults_are_printed(rt: HostRuntime) -> Result<(), Fail> {
    let alloc = rt.alloc();
    assert_eq!(rt;
        format!(in alloc; "{}", Form { at: 3 })?.as_str(),
        "not of the form at byte 3"
    );
    for (fault, text) in [
        (ReadFault::Form { at: 3 }, "not of the form at byte 3"),
        (ReadFault::NoMemory, "no memory"),
    ] {
        assert_eq!(rt; format!(in alloc; "{fault}")?.as_str(), text);
    }
    Ok(())
}

#[test]
fn identifiers_ascend_and_other_codes_are_refused(rt: HostRuntime) -> Result<(), Fail> {
    let alloc = rt.alloc();
    for (byte, value, place) in [
        (37, 1, Some(37)),
        (37, 0, Some(37)),
        (37, 2, None),
        (54, 3, Some(54)),
        (54, 1, None),
    ] {
        let mut changed = CONT_RESP;
        changed[byte] = value;
        assert_eq!(rt; fault_of(alloc, &changed)?, place, "{value} at {byte}");
    }
    Ok(())
}

/// Whether two inputs spell the same report.
fn are_same(alloc: Global, one: &[u8], other: &[u8]) -> Result<bool, Fail> {
    match (read_report(alloc, one), read_report(alloc, other)) {
        (Ok(one), Ok(other)) => Ok(one.is_same(&other)),
        _ => Err("not a report".into()),
    }
}

#[test]
fn reports_are_the_same_by_their_bytes(rt: HostRuntime) -> Result<(), Fail> {
    let alloc = rt.alloc();
    assert!(rt; are_same(alloc, &REPORT, &REPORT)?);
    for (byte, value) in [(1, 0x77), (17, 2), (25, 11), (37, 0x63), (42, 0x64)] {
        let other = spliced(alloc, &REPORT, byte, &[value], byte + 1)?;
        assert!(rt; !are_same(alloc, &REPORT, &other)?, "{byte}");
    }
    let public = spliced(alloc, &REPORT, 28, &[0, 0, 0, 1, 7], 32)?;
    assert!(rt; !are_same(alloc, &REPORT, &public)?);
    Ok(())
}

#[test]
fn a_report_has_its_key_and_its_half(rt: HostRuntime) -> Result<(), Fail> {
    let alloc = rt.alloc();
    let Ok(report) = read_report(alloc, &REPORT) else {
        return Err("not a report".into());
    };
    let (Some(v), Some(w)) = (Name::new(b"v"), Name::new(b"w")) else {
        return Err("no names".into());
    };
    let copy = report.clone()?;
    let mut id = [0; 16];
    assert!(rt; !copy.has_key(&v, &id));
    id[15] = 1;
    assert!(rt; copy.has_key(&v, &id) && !copy.has_key(&w, &id));
    let half = copy.half()?.clone()?;
    assert_eq!(rt; (half.time, half.public.len()), (10, 0));
    assert_eq!(rt; half.helper.as_slice(), [0x63].as_slice());
    Ok(())
}

#[test]
fn copies_say_the_same(rt: HostRuntime) -> Result<(), Fail> {
    let alloc = rt.alloc();
    for bytes in [
        SHARE.as_slice(),
        SHARE_RESP.as_slice(),
        WIDE_RESP.as_slice(),
    ] {
        let response: ShareResp = match read_all(alloc, bytes) {
            Ok(response) => response,
            Err(_) => return Err("no answer".into()),
        };
        let copy = response.clone()?;
        assert_eq!(rt; write_all(alloc, &copy)?.as_slice(), bytes);
    }
    let Ok(Message::InitResp(_, steps)) = read_message(alloc, &INIT_RESP) else {
        return Err("not a message".into());
    };
    let copy = steps.clone()?;
    let [one, two] = copy.as_slice() else {
        return Err("not two steps".into());
    };
    assert!(rt;
        matches!(&one.body, Step::Continued(prep) if prep.as_slice() == [7, 8, 9].as_slice())
    );
    assert!(rt;
        matches!(two.body, Step::Failed(Code::VdafPrepError)) && (one.id[0], two.id[0]) == (1, 2)
    );
    Ok(())
}
