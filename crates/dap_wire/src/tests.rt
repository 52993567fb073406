ghost use Rattle.std.specs.Prelude.{◌<◌};
ghost use Rattle.dap_wire.specs.Calls.{SameEnd};

use super::*;
use dap_bytes::Bytes;
use dap_outside::{Fate, KeptFates};
use std::alloc::{AllocError, Global};
use std::process::Abort;
use std::test::Fail;

type End = LinkEnd<KeptFates>;

// The two ends of a link whose fates towards the helper begin by the list.
fn ends(alloc: Global, list: Vec<Fate>) -> Result<(End, End), Fail> {
    let there = KeptFates::new(alloc, list, Fate::Deliver);
    let back = KeptFates::new(alloc, Vec::new(alloc), Fate::Drop);
    match link(alloc, there, back) {
        Ok(ends) => Ok(ends),
        Err(_) => Err(Fail::from("memory")),
    }
}

fn say(rt: &impl Abort, alloc: Global, end: &mut End, text: &[u8]) -> Result<(), AllocError>
    ensures { SameEnd end.old end.new }
{
    let sent = end.send(text.to_vec(alloc)?);
    assert!(rt; sent.is_ok());
    Ok(())
}

// What a receive gave, as a text.
fn told(answer: &Recv) -> &[u8] {
    match answer {
        Recv::Message(message) => message.as_slice(),
        Recv::Held => b"held",
        Recv::Dropped => b"dropped",
        Recv::Empty => b"empty",
    }
}

fn hear(rt: &impl Abort, end: &mut End, wanted: &[u8], drops: u64) -> Result<(), AllocError>
    ensures { SameEnd end.old end.new }
{
    let answer = end.recv()?;
    assert_eq!(rt; told(&answer), wanted);
    assert_eq!(rt; end.drops(), drops);
    Ok(())
}

#[test]
fn each_message_follows_its_fate(rt: HostRuntime) -> Result<(), Fail> {
    let alloc = rt.alloc();
    let list = [Fate::Twice, Fate::Drop, Fate::Hold].to_vec(alloc)?;
    let (mut leader, mut helper) = ends(alloc, list)?;
    for text in [b"A", b"B", b"C"] {
        say(&rt, alloc, &mut leader, text)?;
        say(&rt, alloc, &mut helper, text)?;
    }
    for (wanted, drops) in [
        (b"A".as_slice(), 0),
        (b"dropped", 1),
        (b"held", 0),
        (b"A", 0),
        (b"C", 0),
        (b"empty", 0),
    ] {
        hear(&rt, &mut helper, wanted, drops)?;
    }
    for drops in 1..4 {
        hear(&rt, &mut leader, b"dropped", drops)?;
    }
    assert_eq!(rt; helper.into_fates().carried().len(), 2);
    assert_eq!(rt; leader.into_fates().carried().len(), 0);
    Ok(())
}

#[test]
fn a_65th_message_comes_back(rt: HostRuntime) -> Result<(), Fail> {
    let alloc = rt.alloc();
    let (mut leader, mut helper) = ends(alloc, Vec::new(alloc))?;
    for byte in 0..64u8 {
        say(&rt, alloc, &mut leader, &[byte])?;
    }
    let Err(Full(message)) = leader.send(b"last".to_vec(alloc)?) else {
        return Err(Fail::from("a 65th place"));
    };
    assert_eq!(rt; message.as_slice(), b"last".as_slice());
    hear(&rt, &mut helper, &[0], 0)?;
    say(&rt, alloc, &mut leader, message.as_slice())?;
    Ok(())
}

fn upload(alloc: Global, line: u32) -> Upload {
    Upload {
        line,
        moment: Some(60),
        report: Bytes::new(Vec::new(alloc)),
    }
}

#[test]
fn a_1025th_upload_comes_back(rt: HostRuntime) -> Result<(), Fail> {
    let alloc = rt.alloc();
    let (mut front, mut lane) = plain(alloc)?;
    assert!(rt; lane.next().is_none());
    lane.meet(&mut front);
    for line in 0..1024 {
        assert!(rt; front.put(upload(alloc, line)).is_ok());
    }
    let Err(FullUpload(last)) = front.put(upload(alloc, 1024)) else {
        return Err(Fail::from("a 1025th place"));
    };
    for line in 0..1024 {
        let next = lane.next().expect(&rt, "an upload");
        assert_eq!(rt; (next.line, next.moment), (line, Some(60)));
    }
    assert!(rt; front.put(last).is_ok());
    Ok(())
}

fn fate_of(number: u16) -> Fate {
    match number % 7 {
        0 => Fate::Deliver,
        1 | 5 => Fate::Twice,
        2 | 6 => Fate::Hold,
        _ => Fate::Drop,
    }
}

// A block of 50 messages goes through, and those of it that come later come behind it, in order.
fn go_through(
    rt: &impl Abort,
    alloc: Global,
    leader: &mut End,
    helper: &mut End,
    first: u16,
) -> Result<(), AllocError>
    requires { first < 60000 }
{
    for number in first..first + 50 {
        say(rt, alloc, leader, &number.to_be_bytes())?;
    }
    let mut later = Vec::new(alloc);
    for number in first..first + 50 {
        let text = number.to_be_bytes();
        let answer = helper.recv()?;
        match fate_of(number) {
            Fate::Deliver => assert_eq!(rt; told(&answer), text.as_slice()),
            Fate::Drop => assert_eq!(rt; told(&answer), b"dropped".as_slice()),
            Fate::Twice => {
                assert_eq!(rt; told(&answer), text.as_slice());
                later.push(text)?;
            }
            Fate::Hold => {
                assert_eq!(rt; told(&answer), b"held".as_slice());
                later.push(text)?;
            }
        }
    }
    for text in later.iter() {
        assert_eq!(rt; told(&helper.recv()?), text.as_slice());
    }
    assert_eq!(rt; told(&helper.recv()?), b"empty".as_slice());
    Ok(())
}

#[test]
fn a_thousand_messages_go_by_the_list(rt: HostRuntime) -> Result<(), Fail> {
    let alloc = rt.alloc();
    let mut list = Vec::new(alloc);
    for number in 0..1000 {
        list.push(fate_of(number))?;
    }
    let (mut leader, mut helper) = ends(alloc, list)?;
    for block in 0..20u16 {
        go_through(&rt, alloc, &mut leader, &mut helper, block * 50)?;
    }
    let fates = helper.into_fates();
    let mut carried = fates.carried().iter();
    for number in 0..1000u16 {
        if fate_of(number) != Fate::Drop {
            let message = carried.next().expect(&rt, "a message");
            assert_eq!(rt; message.as_slice(), number.to_be_bytes().as_slice());
        }
    }
    assert!(rt; carried.next().is_none());
    Ok(())
}

// A part of a server that holds an end.
#[derive(Drop)]
struct Part {
    end: End,
    number: u64,
}

impl Meet<KeptFates> for Part {
    ghost use Rattle.std.specs.Prelude.{◌≡◌};

    ghost end = { λ part. part.end };

    ghost stays = { λ old new. new.number ≡ old.number };

    fn meet(&mut self, near: &mut End) {
        self.end.meet(near);
    }
}

#[test]
fn ends_that_were_moved_apart_meet_again(rt: HostRuntime) -> Result<(), Fail> {
    let alloc = rt.alloc();
    let there = KeptFates::new(alloc, [Fate::Hold].to_vec(alloc)?, Fate::Deliver);
    let back = KeptFates::new(alloc, Vec::new(alloc), Fate::Deliver);
    let Ok((mut leader, helper)) = link(alloc, there, back) else {
        return Err(Fail::from("memory"));
    };
    say(&rt, alloc, &mut leader, b"A")?;
    let mut part = Part {
        end: helper,
        number: 1,
    };
    hear(&rt, &mut part.end, b"held", 0)?;
    part.meet(&mut leader);
    say(&rt, alloc, &mut leader, b"B")?;
    say(&rt, alloc, &mut leader, b"C")?;
    hear(&rt, &mut part.end, b"B", 0)?;
    part.meet(&mut leader);
    hear(&rt, &mut part.end, b"C", 0)?;
    hear(&rt, &mut part.end, b"A", 0)?;
    Ok(())
}
