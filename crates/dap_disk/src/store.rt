//! What a disk in memory keeps: its first bytes, its calls, and at hand what follows from them.
ghost use Rattle.std.specs.Prelude.{◌≡◌, ◌⊎◌, ◌≤◌, ◌<◌, ◌+◌, ◌++◌, [], ◌∷◌, List, ℕ, Vec, true, false, length, drop, OnOk, OnErr, vec_capacity, vec_len};
ghost use Rattle.std.specs.declared.alloc.Global.{Global as TheGlobal};
ghost use Rattle.dap_disk.specs.declared.event.Event.TheVariants.{Wrote, Cut as CutTo, Settled};
ghost use Rattle.dap_disk.specs.History.{changes_of, state_of, held_after};
ghost use Rattle.dap_disk.specs.Images.{greatest, are_within};

use crate::Image;
use crate::event::Event;
use crate::place::{put_events, write_over};
use std::alloc::{AllocError, Global};

#[derive(Drop)]
pub(crate) struct Store {
    alloc: Global,
    first: Vec<u8>,
    events: Vec<Event>,
    // Until the first change the two below are empty.
    live: bool,
    bytes: Vec<u8>,
    synced: Vec<u8>,
    // Where the calls since the last sync or restart begin.
    settled: usize,
    ghost empty: { live ≡ false → length events.items ≡ 0 },
    ghost held: { live ≡ true → bytes.items ≡ held_after first.items events.items },
    ghost last_synced: { live ≡ true → synced.items ≡ (state_of first.items events.items).synced },
    ghost within: { settled ≤ length events.items },
    ghost pending: { changes_of (drop settled events.items) ≡ (state_of first.items events.items).pending },
    ghost placed: { are_within (length (state_of first.items events.items).synced)
        (state_of first.items events.items).pending ≡ true },
    ghost room_bytes: { live ≡ true
        → greatest (length synced.items) (changes_of (drop settled events.items)) ≤ vec_capacity bytes },
    ghost room_synced: { live ≡ true
        → greatest (length synced.items) (changes_of (drop settled events.items)) ≤ vec_capacity synced },
    ghost room_events: { settled < length events.items → vec_len events < vec_capacity events },
}

impl Store {
    /// A store of these bytes, all of them synced. It takes no memory.
    pub(crate) fn new(alloc: Global, first: Vec<u8>) -> Store
        ensures first { result.first.items ≡ first.items }
        ensures events { result.events.items ≡ [] }
    {
        Store {
            alloc,
            first,
            events: Vec::new(alloc),
            live: false,
            bytes: Vec::new(alloc),
            synced: Vec::new(alloc),
            settled: 0,
        }
    }

    /// What is held.
    pub(crate) fn bytes(&self) -> &[u8]
        ensures { result.now ≡ held_after self.now.first.items self.now.events.items }
    {
        if self.live { &self.bytes } else { &self.first }
    }

    // Makes room for a file of this length, for a call, and for a sync or restart after it.
    fn prepare(&mut self, end: usize) -> Result<(), AllocError>
        ensures same { (self.new.first.items ≡ self.old.first.items) × (self.new.events.items ≡ self.old.events.items)
            × (self.new.settled ≡ self.old.settled) }
        ensures live { OnOk result (self.new.live ≡ true) }
        ensures room { OnOk result ((end ≤ vec_capacity self.new.bytes) × (end ≤ vec_capacity self.new.synced)
            × (vec_len self.new.events + 2 ≤ vec_capacity self.new.events)) }
    {
        if !self.live {
            let bytes = Vec::from_slice(self.alloc, &self.first)?;
            let synced = Vec::from_slice(self.alloc, &self.first)?;
            self.settled = 0;
            self.bytes = bytes;
            self.synced = synced;
            self.live = true;
        }
        if end > self.bytes.len() {
            let more = end - self.bytes.len();
            self.bytes.try_reserve(more)?;
        }
        if end > self.synced.len() {
            let more = end - self.synced.len();
            self.synced.try_reserve(more)?;
        }
        self.events.try_reserve(2)
    }

    /// A write. At `Err` nothing has changed but the room.
    pub(crate) fn write(&mut self, at: usize, bytes: &[u8]) -> Result<(), AllocError>
        requires { at ≤ length (held_after self.old.first.items self.old.events.items) }
        ensures first { self.new.first.items ≡ self.old.first.items }
        ensures ok { OnOk result ((v : Vec ℕ TheGlobal) × (v.items ≡ bytes.now)
            × (self.new.events.items ≡ self.old.events.items ++ Wrote at v ∷ [])) }
        ensures err { OnErr result (self.new.events.items ≡ self.old.events.items) }
    {
        if bytes.len() > usize::MAX - at {
            return Err(AllocError);
        }
        let end = at + bytes.len();
        let copy = Vec::from_slice(self.alloc, bytes)?;
        self.prepare(end)?;
        write_over(&mut self.bytes, at, bytes);
        self.events.push_reserved(Event::Wrote(at, copy));
        Ok(())
    }

    /// A cut, likewise.
    pub(crate) fn cut(&mut self, len: usize) -> Result<(), AllocError>
        requires { len ≤ length (held_after self.old.first.items self.old.events.items) }
        ensures first { self.new.first.items ≡ self.old.first.items }
        ensures ok { OnOk result (self.new.events.items ≡ self.old.events.items ++ CutTo len ∷ []) }
        ensures err { OnErr result (self.new.events.items ≡ self.old.events.items) }
    {
        self.prepare(0)?;
        self.bytes.truncate(len);
        self.events.push_reserved(Event::Cut(len));
        Ok(())
    }

    /// A sync, or a restart that leaves what the rule says. It takes no memory.
    pub(crate) fn settle(&mut self, image: Image)
        ensures first { self.new.first.items ≡ self.old.first.items }
        ensures events { ((self.new.events.items ≡ self.old.events.items)
            × ((state_of self.old.first.items self.old.events.items).pending ≡ []))
            ⊎ (self.new.events.items ≡ self.old.events.items ++ Settled image ∷ []) }
    {
        if self.settled == self.events.len() {
            return;
        }
        let pending = &self.events[self.settled..];
        put_events(&mut self.synced, image, pending);
        hold_same(&mut self.bytes, &self.synced, image);
        self.events.push_reserved(Event::Settled(image));
        self.settled = self.events.len();
    }
}

// Copies what was left, unless it is there already.
fn hold_same(bytes: &mut Vec<u8>, synced: &[u8], image: Image)
    requires room { length synced.now ≤ vec_capacity bytes.old }
    requires there { image ≡ Image.New → bytes.old.items ≡ synced.now }
    ensures same { bytes.new.items ≡ synced.now }
    ensures capacity { vec_capacity bytes.old ≤ vec_capacity bytes.new }
{
    if let Image::New = image {
        return;
    }
    bytes.clear();
    match bytes.extend_from_slice(synced) {
        Ok(()) => {}
        Err(_) => unreachable!(),
    }
}
