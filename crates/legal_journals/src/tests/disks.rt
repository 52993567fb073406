//! The journals of a whole run, as an independent program of the formats made them: one task of counts, three reports in
//! one lane, and the collection of their batch. In format 1, in which they begin with an Open of format 1, and in format 2.

use crate::legal;
use dap_bytes::{Node, Part};
use lane_records::read_records;
use std::alloc::Global;
use std::test::Fail;

const LEADER_FRONT: [&[u8]; 4] = [
    b"!\x01\x01",
    b"\x22\x01v\0\0\0\0\x03\0\0\x0e\x10\xb8\xec\x9d\x96\xebAwW\x87\x8b\xfe\xd2.\xa8,\xba\xc6\x98\xe8\x06F;\xa2\xe4\xbd\x9f\xa6\xd2\xb9H\xc7\xb4,j\x19\x0c\xf62N\xd9r\xe3\xaa\xd3G\xa2\x88\xfb",
    b"#\x01v\0\0\0\0\0\0\0\0",
    b"$\x01v\0\0\0\0\0\0\0\0\0\0\0\x03\0\0\0\0\0\0\0\x08\xf4\xf0\x8c\xdfJ\xe7\x1b\x14\0\0\0\x08\x0f\x0fs \xb4\x18\xe4\xeb",
];

const LEADER_FRONT_TWO: [&[u8]; 2] = [
    b"!\x02\x01",
    b"'\x01v\0\0\0\0\x03\0\0\x0e\x10\0\xb8\xec\x9d\x96\xebAwW\x87\x8b\xfe\xd2.\xa8,\xba\xc6\x98\xe8\x06F;\xa2\xe4\xbd\x9f\xa6\xd2\xb9H\xc7\xb4,j\x19\x0c\xf62N\xd9r\xe3\xaa\xd3G\xa2\x88\xfb",
];

const LEADER_LANE: [&[u8]; 7] = [
    b"\x01\x01\x01\0",
    b"\x02\x01v\0\0\0\0\0\0\0\0\0\0\0\0\0\0\0\x01\0\0\0\0\0\0\0\x0a\0\0\0\0\0\0\0\0\0@ie\xcb\x1d\xf9\xe3\x95\xf7F\x1a-\x8cjn1Mj\x17\xae\xca\0\xbc\x17\xd1\xe7el\x1bF\xc5B\xb3\x18\x80\xd1\xce?\x1aU\x81\xbe\xef\x1b\x99\xdd\xed\x88!\x9f\xfa\xdfbV\xf0\x8c&\x90w\x93\xa7\xc4\x8b\xca\xe9\0\0\00\xf0\xb0\xe9\x09%*O\xa1&\xe5\x10vx6\x12\x87fk\x1bp\xfbxG\xb4\xa1\x09\xb7\xf9\x1e\xc5\x99G!\x0a]\xc92$J\x8a\xf3\0\xd5\x15\xea\xd8\xac\xd4",
    b"\x02\x01v\0\0\0\0\0\0\0\0\0\0\0\0\0\0\0\x02\0\0\0\0\0\0\0\x14\0\0\0\0\0\0\0\0\0@+:\x1f\xd9\xefxw\x87\x83\xde1&\x06Zx\xf3$BlH\x80\xdc0\x7fDB\xfe\x22{\xe1\x5c h\xb4\0\x93\x889\x13\xabw\x0b\xf1.B\x07\x9d\x107V|\x02^\xe8\x84\xc5\xa6\xef\x93R&\xde\x01i\0\0\00\xf7\xafy\xeeD\xac\xf3\xc4s\xbe\xc5\x01Rz\xdf\x9d+\xb0*%\xa51\x01\x0c\x09\x5cQ&6\x05]\xb3\x13 D\x05\x1b\x891El\xa0`N\x82S\xf1\xba",
    b"\x02\x01v\0\0\0\0\0\0\0\0\0\0\0\0\0\0\0\x03\0\0\0\0\0\0\x0e\x0f\0\0\0\0\0\0\0\0\0@/\x16\x17\xb4\xae\xdcj\xfal\xd8\x14V\x99\xf9.5\x07\x0e\x81\x8ea\x92\xaf\x5c\xb7\x08<\xa7\xdeD\xcb\xecG(\xcb\xdc\xe9\xde\xfe0\x99F,\x8d\x96&a`0\xb7\xb6\xe5\xbc\x1d\xdf!o\xed\x9f'\xdd\x16\x9c\xf5\0\0\00\x8f\xd3z$)M'\x18m?g^w\xe0w\xa3\xe2D~\x84\xcd\xfb\xbfC\xf0\xee\xd5\x05m\xe1Ak\xef\xed\x05X\xc0\x93\x97H\xa0('\xbd\xdc\xa87;",
    b"\x03\x01v\x03\0\0\0\0\0\0\0\0\x01\0\0\0\0\0\0\0\x01\0\x03\0\0\0\0\0\0\0\0\0\0\0\0\0\0\0\x01\0\0\0\0\0\0\0\0\0\0\0\0\0\0\0\0\0\0\0\0\x02\0\0\0\0\0\0\0\0\0\0\0\0\0\0\0\0\0\0\0\0\x03\0\0\0\0\0",
    b"\x04\0\0\0\0\0\0\0\0\x01\0\0\0\0\0\0\0\x01\0\x03\0\0\0\0\0\0\0\0\0\0\0\0\0\0\0\x01\x01\0\0\0\x08Z\x19\x933yP\xa79\0\0\0\0\0\0\0\0\0\0\0\0\0\0\0\x02\x01\0\0\0\x08\x13\xce\x0a\x05\x95\xb4P\xed\0\0\0\0\0\0\0\0\0\0\0\0\0\0\0\x03\x01\0\0\0\x08\x89\x09\xef\xa6:\xe2#\xed",
    b"\x05\x01v\0\0\0\0\0\0\0\0\0\0\0\x03\0\0\0\0\x9e\x0eL\xf6\xdc\xb9\x15\xf5{\xa8\x06T\xd2\xee\x17\x1c\x188PQ'\0\xa7\x5cZ.\xfa\xb2\x1b\x82\xaf\xa8\0\0\0\x08\xf4\xf0\x8c\xdfJ\xe7\x1b\x14",
];

const LEADER_LANE_TWO: [&[u8]; 1] = [b"\x01\x02\x01\0"];

const HELPER_FRONT: [&[u8]; 3] = [
    b"1\x01\x01",
    b"2\x01v\0\0\0\0\x03\0\0\x0e\x10\xb8\xec\x9d\x96\xebAwW\x87\x8b\xfe\xd2.\xa8,\xba\x8b8;$-\xbf\xad|3\xcc9\xed\xe1;\x03\x9c\xc4\xb5\xbe\xb9s\xf8!\xe6\xb5\xd2\xd4c\xef\x1e\x968",
    b"4\x05\x01v\0\0\0\0\0\0\0\0\0\0\0\x03\x9e\x0eL\xf6\xdc\xb9\x15\xf5{\xa8\x06T\xd2\xee\x17\x1c\x188PQ'\0\xa7\x5cZ.\xfa\xb2\x1b\x82\xaf\xa8\x06\x01v\0\0\0\0\0\0\0\0\0\0\0\0\x08\x0f\x0fs \xb4\x18\xe4\xeb",
];

const HELPER_FRONT_TWO: [&[u8]; 2] = [
    b"1\x02\x01",
    b"7\x01v\0\0\0\0\x03\0\0\x0e\x10\0\xb8\xec\x9d\x96\xebAwW\x87\x8b\xfe\xd2.\xa8,\xba\x8b8;$-\xbf\xad|3\xcc9\xed\xe1;\x03\x9c\xc4\xb5\xbe\xb9s\xf8!\xe6\xb5\xd2\xd4c\xef\x1e\x968",
];

const HELPER_LANE: [&[u8]; 4] = [
    b"\x11\x01\x01\0",
    b"\x12\x01\0\0\0\0\0\0\0\0\x01\0\0\0\0\0\0\0\x01\x01v\0\x03\0\0\0\0\0\0\0\0\0\0\0\0\0\0\0\x01\0\0\0\0\0\0\0\x0a\0\0\0\0\0\0\00\xf0\xb0\xe9\x09%*O\xa1&\xe5\x10vx6\x12\x87fk\x1bp\xfbxG\xb4\xa1\x09\xb7\xf9\x1e\xc5\x99G!\x0a]\xc92$J\x8a\xf3\0\xd5\x15\xea\xd8\xac\xd4\0\0\0\0\0\0\0\0\0\0\0\0\0\0\0\x02\0\0\0\0\0\0\0\x14\0\0\0\0\0\0\00\xf7\xafy\xeeD\xac\xf3\xc4s\xbe\xc5\x01Rz\xdf\x9d+\xb0*%\xa51\x01\x0c\x09\x5cQ&6\x05]\xb3\x13 D\x05\x1b\x891El\xa0`N\x82S\xf1\xba\0\0\0\0\0\0\0\0\0\0\0\0\0\0\0\x03\0\0\0\0\0\0\x0e\x0f\0\0\0\0\0\0\00\x8f\xd3z$)M'\x18m?g^w\xe0w\xa3\xe2D~\x84\xcd\xfb\xbfC\xf0\xee\xd5\x05m\xe1Ak\xef\xed\x05X\xc0\x93\x97H\xa0('\xbd\xdc\xa87;",
    b"\x13\0\0\0\0\0\0\0\0\x01\0\0\0\0\0\0\0\x01\0\x03\0\0\0\0\0\0\0\0\0\0\0\0\0\0\0\x01\x01\0\0\0\x08\xa8\xe6l\xcc\x85\xafX\xc6\0\0\0\0\0\0\0\0\0\0\0\0\0\0\0\x02\x01\0\0\0\x08\xee1\xf5\xfaiK\xaf\x12\0\0\0\0\0\0\0\0\0\0\0\0\0\0\0\x03\x01\0\0\0\x08y\xf6\x10Y\xc4\x1d\xdc\x12",
    b"\x14\x01v\0\0\0\0\0\0\0\0\0\0\0\x03\0\0\0\0\x9e\x0eL\xf6\xdc\xb9\x15\xf5{\xa8\x06T\xd2\xee\x17\x1c\x188PQ'\0\xa7\x5cZ.\xfa\xb2\x1b\x82\xaf\xa8\0\0\0\x08\x0f\x0fs \xb4\x18\xe4\xeb",
];

const HELPER_LANE_TWO: [&[u8]; 1] = [b"\x11\x02\x01\0"];

/// The records of a journal in format 2: its first ones, and behind them those of format 1 that are the same in both.
fn in_two(alloc: Global, two: &[&[u8]], one: &[&[u8]]) -> Result<Vec<Vec<u8>>, Fail> {
    let mut texts = Vec::new(alloc);
    for text in two.iter().chain(one.iter().skip(two.len())) {
        texts.push(text.to_vec(alloc)?)?;
    }
    Ok(texts)
}

/// Whether each byte string is a record, and the journal legal.
fn is_legal(alloc: Global, node: Node, part: Part, texts: &[Vec<u8>]) -> Result<bool, Fail> {
    let Ok(records) = read_records(alloc, texts) else {
        return Ok(false);
    };
    Ok(legal(alloc, part, node, &records)?.is_none())
}

/// Whether the journal is legal in format 1, in format 2, and in format 1 with an Open of format 2 behind it, and not in
/// format 2 with an Open of format 1 behind it.
fn is_carried_over(
    alloc: Global,
    node: Node,
    part: Part,
    one: &[&[u8]],
    two: &[&[u8]],
) -> Result<bool, Fail> {
    let old = in_two(alloc, &[], one)?;
    let mut new = in_two(alloc, two, one)?;
    let mut carried = in_two(alloc, &[], one)?;
    if let (Some(open), Some(old_open)) = (two.first(), one.first()) {
        carried.push(open.to_vec(alloc)?)?;
        if !is_legal(alloc, node, part, &new)? {
            return Ok(false);
        }
        new.push(old_open.to_vec(alloc)?)?;
    }
    Ok(
        is_legal(alloc, node, part, &old)?
            && is_legal(alloc, node, part, &carried)?
            && !is_legal(alloc, node, part, &new)?,
    )
}

#[test]
fn the_lanes_of_a_run_are_legal_in_both_formats(rt: HostRuntime) -> Result<(), Fail> {
    let alloc = rt.alloc();
    let lane = Part::Lane(0);
    assert!(rt; is_carried_over(alloc, Node::Leader, lane, &LEADER_LANE, &LEADER_LANE_TWO)?);
    assert!(rt; is_carried_over(alloc, Node::Helper, lane, &HELPER_LANE, &HELPER_LANE_TWO)?);
    Ok(())
}

#[test]
fn the_fronts_of_a_run_are_legal_in_both_formats(rt: HostRuntime) -> Result<(), Fail> {
    let alloc = rt.alloc();
    assert!(rt;
        is_carried_over(
            alloc,
            Node::Leader,
            Part::Front,
            &LEADER_FRONT,
            &LEADER_FRONT_TWO
        )?
    );
    assert!(rt;
        is_carried_over(
            alloc,
            Node::Helper,
            Part::Front,
            &HELPER_FRONT,
            &HELPER_FRONT_TWO
        )?
    );
    Ok(())
}
