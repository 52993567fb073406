//! Texts of loads, as an independent program printed them.

use super::*;
use std::test::Fail;

const THREE: &str = "task load sum 16 1 3600
measure load 00000000000000000000000000000000 0 5 00000000000000050000000000000000
measure load 01000000000000000000000000000001 1 6 00000000000000050000000000000001
measure load 02000000000000000000000000000002 2 9 00000000000000050000000000000002
collect load 0
collect load 3600
";

#[test]
fn a_small_load_is_printed_whole(rt: HostRuntime) -> Result<(), Fail> {
    let text = load_script(rt.alloc(), 3, 5)?;
    assert_eq!(rt; text.as_slice(), THREE.as_bytes());
    Ok(())
}

/// Places in the greatest load with the greatest seed, and what stands there: where a byte of the number is full, where
/// the values begin anew, where the second batch and then the first again begin, and the end.
const PLACES: [(usize, &str); 6] = [
    (
        22_554,
        "measure load 00000000000000000000000000000100 256 65535 ffffffffffffffff0000000000000100\nmeasure load 01000000000000000000000000000101 257 512 ffffffffffffffff0000000000000101\n",
    ),
    (
        322_237,
        "measure load 10000000000000000000000000000e10 3600 49407 ffffffffffffffff0000000000000e10\n",
    ),
    (
        645_623,
        "measure load 20000000000000000000000000001c20 0 1023 ffffffffffffffff0000000000001c20\nmeasure load 21000000000000000000000000001c21 1 15424 ffffffffffffffff0000000000001c21\n",
    ),
    (
        4_483_429,
        "measure load 4f00000000000000000000000000c34f 6799 29280 ffffffffffffffff000000000000c34f\n",
    ),
    (4_483_519, "collect load 0\ncollect load 3600\n"),
    (4_483_552, ""),
];

#[test]
fn the_greatest_load_has_its_lines(rt: HostRuntime) -> Result<(), Fail> {
    let text = load_script(rt.alloc(), MOST_MEASUREMENTS, u64::MAX)?;
    assert_eq!(rt; text.len(), 4_483_552);
    for (place, lines) in &PLACES {
        let (_, rest) = text
            .split_at_checked(*place)
            .expect(&rt, "the text is that long");
        assert!(rt; rest.starts_with(lines.as_bytes()), "at {place}");
    }
    Ok(())
}
