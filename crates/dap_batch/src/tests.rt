use super::*;

#[test]
fn times_fall_into_buckets_of_the_precision(rt: HostRuntime) {
    for (time, precision, want) in [
        (0, 3600, 0),
        (3599, 3600, 0),
        (3600, 3600, 3600),
        (
            999_999_999_999_999_999,
            1_000_000_000,
            999_999_999_000_000_000,
        ),
        (7, 1, 7),
    ] {
        assert_eq!(rt; batch_of(time, precision), want);
    }
    let mut id = [0; 16];
    id[0] = 39;
    assert_eq!(rt;
        (lane_of(&id, 4), lane_of(&id, 16), lane_of(&id, 1)),
        (3, 7, 0)
    );
}

/// The identifier of 15 zeros and a one, and that of the bytes 0 to 15.
fn two_identifiers() -> [[u8; 16]; 2] {
    [
        [0, 0, 0, 0, 0, 0, 0, 0, 0, 0, 0, 0, 0, 0, 0, 1],
        [0, 1, 2, 3, 4, 5, 6, 7, 8, 9, 10, 11, 12, 13, 14, 15],
    ]
}

/// SHA-256 of the first, and the exclusive or of both digests.
const FIRST: [u8; 32] = [
    0x7c, 0x3c, 0xcd, 0x10, 0xbb, 0x7e, 0xc3, 0x7b, 0x46, 0xd3, 0x79, 0x26, 0xae, 0x62, 0x74, 0x26,
    0x7f, 0x00, 0x7a, 0x34, 0xae, 0xaf, 0x15, 0xc8, 0x82, 0xa7, 0x15, 0xa7, 0xf3, 0x30, 0x05, 0x29,
];

const BOTH: [u8; 32] = [
    0xc2, 0x79, 0x06, 0x36, 0xbe, 0xc1, 0xf5, 0xc5, 0xfb, 0x35, 0xfd, 0xa2, 0xb4, 0x4a, 0x84, 0xdb,
    0x3c, 0xc6, 0xe2, 0x64, 0x0d, 0x73, 0xf0, 0x36, 0x59, 0x01, 0x8c, 0x8f, 0x1d, 0x0a, 0x8c, 0xb8,
];

#[test]
fn a_checksum_is_the_exclusive_or_of_digests(rt: HostRuntime) {
    let [first, second] = two_identifiers();
    let mut sum = Checksum::new();
    assert_eq!(rt; sum.bytes(), [0; 32]);
    sum.add(&first);
    assert_eq!(rt; sum.bytes(), FIRST);
    sum.add(&second);
    assert_eq!(rt; sum.bytes(), BOTH);
    let mut other = Checksum::new();
    other.add(&second);
    other.join(&Checksum::from(FIRST));
    assert_eq!(rt; other.bytes(), BOTH);
}

#[test]
fn an_identifier_added_twice_is_gone(rt: HostRuntime) {
    let [first, second] = two_identifiers();
    let mut sum = Checksum::new();
    for id in [first, second, second, first] {
        sum.add(&id);
    }
    assert_eq!(rt; sum.bytes(), [0; 32]);
}
