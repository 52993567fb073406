//! When a disk in memory stops.
ghost use Rattle.std.specs.Prelude.{◌≡◌, ◌≤◌, ◌+◌, ◌-◌, ◌^◌, ◌↔◌, min, true, false, Some, None, IfSome, IfNone, IsSome, IsTrue, MatchOption};
ghost use Rattle.dap_bytes.specs.Causes.{Rose};
ghost use Rattle.dap_disk.specs.Plan.{image_at, new_plan, next_stop, after_call, comes_back, after_restart};

use crate::{Image, Stop};

#[derive(Drop)]
pub(crate) struct Plan {
    stops: Vec<Stop>,
    dead_from: Option<u64>,
    // Calls without restarts, and restarts.
    calls: u64,
    restarts: u64,
    // What the next restart leaves.
    image: Image,
    pub(crate) up: bool,
    pub(crate) downs: u64,
    pub(crate) deads: u64,
}

impl Plan {
    /// No call made yet.
    pub(crate) fn new(stops: Vec<Stop>, dead_from: Option<u64>) -> Plan
        ensures { result ≡ new_plan stops dead_from }
    {
        Plan {
            stops,
            dead_from,
            calls: 0,
            restarts: 0,
            image: Image::New,
            up: true,
            downs: 0,
            deads: 0,
        }
    }

    /// Counts a call, and says whether the disk stops at it.
    pub(crate) fn stops_here(&mut self) -> bool
        ensures calls { self.new.calls ≡ min (self.old.calls + 1) (2 ^ 64 - 1) }
        ensures goes_on { result ≡ false → (image_at self.old.stops.items self.new.calls ≡ None)
            × (self.new ≡ record self.old { calls = self.new.calls }) }
        ensures stops { result ≡ true → (image_at self.old.stops.items self.new.calls ≡ Some self.new.image)
            × Rose self.old.downs self.new.downs
            × (self.new ≡ record self.old {
              calls = self.new.calls;
              image = self.new.image;
              up = false;
              downs = self.new.downs;
            }) }
        ensures counts { (self.old.downs ≤ self.new.downs) × (self.old.deads ≤ self.new.deads) }
        ensures next { self.new ≡ after_call self.old }
    {
        self.calls = self.calls.saturating_add(1);
        match image_at(&self.stops, self.calls) {
            None => false,
            Some(image) => {
                self.image = image;
                self.up = false;
                self.downs = self.downs.saturating_add(1);
                true
            }
        }
    }

    /// Counts a restart, and says what it leaves, or nothing where the disk is dead.
    pub(crate) fn restart(&mut self) -> Option<Image>
        ensures restarts { self.new.restarts ≡ min (self.old.restarts + 1) (2 ^ 64 - 1) }
        ensures alive { MatchOption self.old.dead_from (IsSome result)
            (λ from. IsSome result ↔ (self.new.restarts + 1 ≤ from)) }
        ensures image { IfSome result (λ image. image ≡ self.old.image) }
        ensures told { MatchOption result
            (Rose self.old.deads self.new.deads × (self.new.up ≡ false))
            (λ _. self.new.up ≡ true) }
        ensures counts { (self.old.downs ≤ self.new.downs) × (self.old.deads ≤ self.new.deads) }
        ensures left { result ≡ comes_back self.old }
        ensures next { self.new ≡ after_restart self.old }
    {
        self.restarts = self.restarts.saturating_add(1);
        if self.dead_from.is_some_and(|from| from <= self.restarts) {
            self.deads = self.deads.saturating_add(1);
            self.up = false;
            return None;
        }
        let image = self.image;
        self.image = Image::New;
        self.up = true;
        Some(image)
    }
}

/// What the first stop that is listed for a call leaves.
fn image_at(stops: &[Stop], call: u64) -> Option<Image>
    ensures { result ≡ image_at stops.now call }
{
    stops
        .iter()
        .find(|stop| stop.call == call)
        .map(|stop| stop.image)
}
