//! One end of a link.

ghost use Rattle.std.specs.Prelude.{◌≡◌, ◌<◌, ◌≤◌, ◌+◌, ◌⊎◌, [], ◌∷◌, ◌++◌, IfOk, IfErr, IsOk, OnOk, Ok, Contains, ℕ, List};
ghost use mathlib.Core.List.{IsPrefix};
ghost use Rattle.rtrb.specs.Ring.{sent, received, known_free, known_items, producer_capacity};
ghost use Rattle.dap_bytes.specs.Causes.{RoseBy};
ghost use Rattle.dap_wire.specs.Ring.{out_ring, in_ring};
ghost use Rattle.dap_wire.specs.Link.{IsLink, IsNew, IsCarried};
ghost use Rattle.dap_wire.specs.Calls.{Sends, Receives, Outcome};
ghost use Rattle.dap_wire.specs.declared.recv.Recv.TheVariants.{Message};

use crate::fated::{hold_back, pop_fated, release};
use crate::places::LINK_PLACES;
use crate::recv::{Full, Recv};
use crate::start::Start;
use dap_bytes::Bytes;
use dap_outside::Fates;
use rtrb::{Consumer, Producer, PushError, RingBuffer};
use std::alloc::{AllocError, Global};
use std::collections::VecDeque;
use std::marker::Model;

/// One end of a link: it sends into one ring, and takes from the other by its fates.
#[derive(Drop)]
pub struct LinkEnd<T: Fates> {
    pub(crate) out: Producer<Bytes>,
    pub(crate) ring: Consumer<Bytes>,
    held: VecDeque<Bytes>,
    drops: u64,
    fates: T,
    made: Start<T>,
}

impl<T: Fates> Model for LinkEnd<T> {
    ghost use Rattle.rtrb.specs.Ring.{sent, known_free, producer_capacity, received, known_items};
    ghost use Rattle.dap_wire.specs.Ring.{out_ring, in_ring};
    ghost use Rattle.dap_wire.specs.Link.{Link, link_code, IsEnd};

    ghost Value = { Link T };

    ghost coded = { link_code T.code };

    ghost view = { λ a. record {
      out = out_ring a.out;
      into = in_ring a.ring;
      sent = sent a.out;
      room = known_free a.out;
      received = received a.ring;
      waiting = known_items a.ring;
      held = a.held.items;
      drops = a.drops;
      fates = a.fates;
      made = a.made.value;
    } };

    ghost invariant = { λ a. IsEnd T.drops T.in_row T.carried (producer_capacity a.out) a.made.value a.fates a.drops
        (received a.ring) a.held.items };
}

impl<T: Fates> LinkEnd<T> {
    /// Sends a message, or hands it back where the ring as read in this call is full. It takes no memory.
    pub fn send(&mut self, message: Vec<u8>) -> Result<(), Full>
        ensures end { Sends self.old self.new }
        ensures ok { OnOk result (self.new.sent ≡ self.old.sent ++ message.items ∷ []) }
        ensures room { OnOk result (self.old.room ≤ self.new.room + 1) }
        ensures full { IfErr result
            (λ e. (e.0 ≡ message.items) × (self.new.sent ≡ self.old.sent) × (self.new.room ≡ 0)) }
        ensures succeeds { 0 < self.old.room → IsOk result }
        ensures sent { (self.new.sent ≡ self.old.sent ++ message.items ∷ []) ⊎ (self.new.sent ≡ self.old.sent) }
    {
        match self.out.push(Bytes::new(message)) {
            Ok(()) => Ok(()),
            Err(PushError::Full(message)) => Err(Full(message)),
        }
    }

    /// Takes the oldest message of its ring and follows its fate. Where the ring as read in this call is
    /// empty, it hands on the oldest message that is held. After want of memory, every message that was
    /// there is in the ring or held.
    pub fn recv(&mut self) -> Result<Recv, AllocError>
        ensures end { Receives self.old self.new }
        ensures outcome { Outcome T.gives self.old self.new result }
        ensures received { IsPrefix self.old.received self.new.received }
        ensures later { T.drops self.old.fates ≤ T.drops self.new.fates }
        ensures handed { (m : List ℕ) → result ≡ Ok (Message m) → IsCarried T.carried self.new m }
        ensures held { (m : List ℕ) → Contains self.new.held m → IsCarried T.carried self.new m }
        ensures keeps { (m : List ℕ) → IsCarried T.carried self.old m → IsCarried T.carried self.new m }
    {
        if self.ring.is_empty() {
            return Ok(release(&mut self.held));
        }
        self.held.reserve(1)?;
        let (fate, message) = pop_fated(&mut self.ring, &mut self.fates)?;
        self.drops = fate.row_after(self.drops);
        hold_back(&mut self.held, fate, message)
    }

    /// How often it has answered Dropped since it was made, or since its fates last gave another fate.
    pub fn drops(&self) -> u64
        ensures value { result ≡ self.now.drops }
        ensures rose { RoseBy result (T.drops self.now.made) (T.drops self.now.fates) }
        ensures row { result ≤ T.in_row self.now.fates }
    {
        self.drops
    }

    /// The fates that it follows.
    pub fn into_fates(self) -> T
        ensures value { result ≡ self.fates }
        ensures rose { RoseBy self.drops (T.drops self.made) (T.drops result) }
        ensures row { self.drops ≤ T.in_row result }
    {
        let LinkEnd {
            out: _,
            ring: _,
            held: _,
            drops: _,
            fates,
            made: _,
        } = self;
        fates
    }
}

/// The leader's and the helper's end of a new link, with `LINK_PLACES` places each way. What the leader sends
/// meets the fates `there`, and what the helper sends `back`. Want of memory gives these back.
pub fn link<T: Fates>(alloc: Global, there: T, back: T) -> Result<(LinkEnd<T>, LinkEnd<T>), (T, T)>
    ensures link { IfOk result (λ ends. IsLink ends.0 ends.1) }
    ensures leader { IfOk result (λ ends. IsNew back ends.0) }
    ensures helper { IfOk result (λ ends. IsNew there ends.1) }
    ensures err { IfErr result (λ fates. (fates.0 ≡ there) × (fates.1 ≡ back)) }
{
    let Ok((leader_out, helper_in)) = RingBuffer::new(alloc, LINK_PLACES) else {
        return Err((there, back));
    };
    let Ok((helper_out, leader_in)) = RingBuffer::new(alloc, LINK_PLACES) else {
        return Err((there, back));
    };
    let leader = new_end(alloc, leader_out, leader_in, back);
    let helper = new_end(alloc, helper_out, helper_in, there);
    Ok((leader, helper))
}

/// An end of new rings.
fn new_end<T: Fates>(
    alloc: Global,
    out: Producer<Bytes>,
    ring: Consumer<Bytes>,
    fates: T,
) -> LinkEnd<T>
    requires places { producer_capacity out ≡ LINK_PLACES }
    requires out { (sent out ≡ []) × (known_free out ≡ LINK_PLACES) }
    requires ring { (received ring ≡ []) × (known_items ring ≡ []) }
    ensures new { IsNew fates result }
    ensures rings { (result.out ≡ out_ring out) × (result.into ≡ in_ring ring) }
{
    let made = Start::of(&fates);
    LinkEnd {
        out,
        ring,
        held: VecDeque::new(alloc),
        drops: 0,
        fates,
        made,
    }
}
