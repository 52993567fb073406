ghost use Rattle.std.specs.Prelude.{◌≤◌};

use super::*;
use std::test::Fail;

#[test]
fn numbers_are_written_with_the_most_significant_byte_first(rt: HostRuntime) -> Result<(), Fail> {
    let mut out = Vec::new(rt.alloc());
    put_u8(&mut out, 0x12)?;
    put_u16(&mut out, 0x3456)?;
    put_u32(&mut out, 0x789a_bcde)?;
    put_u64(&mut out, 0xf012_3456_789a_bcde)?;
    let want = [
        0x12, 0x34, 0x56, 0x78, 0x9a, 0xbc, 0xde, 0xf0, 0x12, 0x34, 0x56, 0x78, 0x9a, 0xbc, 0xde,
    ];
    assert_eq!(rt; out.as_slice(), want.as_slice());
    Ok(())
}

#[test]
fn nodes_and_parts_print_as_the_statuses_name_them(rt: HostRuntime) -> Result<(), Fail> {
    let alloc = rt.alloc();
    for (node, part, want) in [
        (Node::Leader, Part::Front, "leader front"),
        (Node::Helper, Part::Lane(0), "helper lane 0"),
        (Node::Helper, Part::Lane(15), "helper lane 15"),
    ] {
        let text = format!(in alloc; "{node} {part}")?;
        assert_eq!(rt; text.as_str(), want);
    }
    Ok(())
}

#[test]
fn bytes_and_texts_give_back_what_they_were_made_of(rt: HostRuntime) -> Result<(), Fail> {
    let alloc = rt.alloc();
    let bytes = Bytes::new([1, 2, 3].to_vec(alloc)?);
    let same = bytes.clone()?;
    assert!(rt; bytes == same);
    assert!(rt; bytes != Bytes::new(Vec::new(alloc)));
    assert_eq!(rt; (bytes.len(), bytes.is_empty()), (3, false));
    assert_eq!(rt; same.into_vec().as_slice(), [1, 2, 3].as_slice());
    let text = Text::new(format!(in alloc; "né")?);
    let same = text.clone()?;
    assert!(rt; text == same);
    assert_eq!(rt; text.as_slice(), [b'n', 0xc3, 0xa9].as_slice());
    let printed = format!(in alloc; "<{text}>")?;
    assert_eq!(rt; printed.as_str(), "<né>");
    assert_eq!(rt; same.into_string().as_str(), "né");
    Ok(())
}

#[test]
fn a_cursor_gives_parts_and_numbers_in_order(rt: HostRuntime) {
    let bytes = [
        0x12, 0x34, 0x56, 0x78, 0x9a, 0xbc, 0xde, 0xf0, 0x12, 0x34, 0x56, 0x78, 0x9a, 0xbc, 0xde,
        9, 8, 7,
    ];
    let mut cursor = Cursor::new(&bytes);
    assert_eq!(rt; cursor.u8(), Some(0x12));
    assert_eq!(rt; cursor.u16(), Some(0x3456));
    assert_eq!(rt; cursor.u32(), Some(0x789a_bcde));
    assert_eq!(rt; cursor.u64(), Some(0xf012_3456_789a_bcde));
    assert_eq!(rt; cursor.place(), 15);
    assert!(rt; cursor.u32().is_none() && cursor.u64().is_none() && cursor.take(4).is_none());
    assert_eq!(rt; (cursor.place(), cursor.rest()), (15, [9, 8, 7].as_slice()));
    assert_eq!(rt; cursor.take(2), Some([9, 8].as_slice()));
    assert!(rt; cursor.u16().is_none());
    assert_eq!(rt; cursor.take(1), Some([7].as_slice()));
    assert_eq!(rt; (cursor.place(), cursor.rest().len()), (18, 0));
    assert!(rt; cursor.u8().is_none());
    assert_eq!(rt; cursor.take(0), Some(bytes.split_at(18).1));
}

#[test]
fn the_limits_are_those_of_the_formats(rt: HostRuntime) {
    assert_eq!(rt; LATEST_TIME, 999_999_999_999_999_999);
    assert_eq!(rt;
        (GREATEST_MINIMUM, GREATEST_PRECISION),
        (1_000_000, 1_000_000_000)
    );
    assert_eq!(rt; MOST_BUCKETS, 64);
    assert_eq!(rt; LONGEST_SCRIPT, 64 * 1024 * 1024);
    assert_eq!(rt; LONGEST_TASK_FILE, 1024 * 1024);
    assert_eq!(rt; LONGEST_BLOCK, 16 * 1024 * 1024);
}

#[test]
fn a_bucket_is_the_start_and_the_precision_so_often(rt: HostRuntime) {
    let batch = Span {
        start: 0,
        buckets: 3,
    };
    assert_eq!(rt; (batch.bucket(3600, 0), batch.bucket(3600, 2)), (0, 7200));
    let late = Span {
        start: LATEST_TIME,
        buckets: 255,
    };
    assert_eq!(rt; late.bucket(4_294_967_295, 254), 1_000_001_090_921_692_929);
}

/// Whether the batch of the buckets 3600, 7200 and 10800 shares one with another batch, asked from both.
fn are_shared(start: u64, buckets: u8) -> (bool, bool)
    requires { (start ≤ LATEST_TIME) × (1 ≤ buckets) × (buckets ≤ MOST_BUCKETS) }
{
    let three = Span {
        start: 3600,
        buckets: 3,
    };
    let other = Span { start, buckets };
    (three.shares(&other, 3600), other.shares(&three, 3600))
}

#[test]
fn batches_share_a_bucket_where_one_starts_in_the_other(rt: HostRuntime) {
    assert_eq!(rt; are_shared(0, 1), (false, false));
    assert_eq!(rt; are_shared(0, 2), (true, true));
    assert_eq!(rt; are_shared(3600, 1), (true, true));
    assert_eq!(rt; are_shared(10_800, 64), (true, true));
    assert_eq!(rt; are_shared(14_400, 1), (false, false));
    assert_eq!(rt; are_shared(7199, 2), (false, false));
    assert_eq!(rt; are_shared(7201, 1), (false, false));
    assert_eq!(rt; are_shared(LATEST_TIME, 64), (false, false));
}

#[test]
fn a_batch_holds_its_buckets(rt: HostRuntime) {
    let three = Span {
        start: 3600,
        buckets: 3,
    };
    for (start, want) in [
        (0, false),
        (3599, false),
        (3600, true),
        (10_800, true),
        (14_400, false),
    ] {
        assert_eq!(rt; three.holds(start, 3600), want);
    }
}

#[test]
fn a_batch_starts_at_a_multiple_and_ends_at_a_time(rt: HostRuntime) {
    for (start, buckets, want) in [
        (0, 1, true),
        (1, 1, false),
        (999_999_999, 1, false),
        (999_999_999_000_000_000, 1, true),
        (999_999_999_000_000_000, 2, false),
        (999_999_936_000_000_000, 64, true),
        (999_999_937_000_000_000, 64, false),
        (1_000_000_000_000_000_000, 1, false),
        (18_446_744_073_000_000_000, 255, false),
    ] {
        assert_eq!(rt; Span { start, buckets }.passes_start(1_000_000_000), want);
    }
    let latest = Span {
        start: LATEST_TIME,
        buckets: 1,
    };
    let later = Span {
        start: LATEST_TIME,
        buckets: 2,
    };
    assert_eq!(rt;
        (latest.passes_start(1), later.passes_start(1)),
        (true, false)
    );
}
