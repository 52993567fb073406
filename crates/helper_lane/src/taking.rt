//! Taking a message.

ghost use Rattle.std.specs.Prelude.{◌≡◌, ◌<◌, reverse, IfOk};
ghost use Rattle.std.specs.Option.{option_map};
ghost use Rattle.helper_lane.specs.Input.{IsInput};
ghost use Rattle.helper_lane.specs.Judged.{input_with};
ghost use Rattle.helper_lane.specs.Refusals.{env_of};
ghost use Rattle.helper_lane.specs.Takes.{Takes, TakesMessage};
ghost use Rattle.helper_lane.specs.Work.{input_of};

use crate::found::Found;
use crate::judge::judge;
use crate::lookup::Lookup;
use crate::refusal::TakeFault;
use crate::taken::Taken;
use crate::work::HelperWork;
use dap_bytes::Bytes;
use dap_messages::{Half, Items};
use dap_tasks::Tasks;
use dap_wire::Recv;
use lane_records::{LaneFault, Place};
use std::alloc::{AllocError, Global};
use vdaf_api::Vdaf;

/// A copy of a job's halves, if there are some.
fn copied(started: Option<&Items<Half>>) -> Result<Option<Items<Half>>, AllocError>
    ensures { IfOk result (λ copy. copy ≡ option_map (λ halves. halves.now) started.entry) }
{
    match started {
        None => Ok(None),
        Some(halves) => Ok(Some(halves.clone()?)),
    }
}

/// The work of a message for which this was found.
fn work_of(found: Found<'_>, bytes: &Bytes) -> Result<HelperWork, AllocError>
    requires { IsInput found.task.now bytes.now (input_with bytes.now found).started }
    ensures { IfOk result (λ work. input_of work ≡ input_with bytes.now found.entry) }
{
    let task = found.task.clone()?;
    let message = bytes.clone()?;
    let started = copied(found.started)?;
    Ok(HelperWork::new(task, message, started))
}

/// A message comes into hand as a work, unless it is refused.
pub(crate) fn take_in<V: Vdaf>(
    alloc: Global,
    place: Place,
    tasks: &Tasks<V>,
    known: Lookup<'_>,
    hand: &mut Vec<Bytes>,
    bytes: Bytes,
) -> Result<HelperWork, TakeFault>
    requires { 0 < place.lanes }
    ensures { TakesMessage (env_of V.of_kind place tasks.now)
        (reverse known.entry.records.now) bytes result hand.old.items hand.new.items }
{
    let found = match judge(alloc, place, tasks, known, bytes.as_slice()) {
        Ok(found) => found,
        Err(fault) => return Err(fault),
    };
    let Ok(work) = work_of(found, &bytes) else {
        return Err(TakeFault::Lane(LaneFault::NoMemory));
    };
    if hand.try_reserve(1).is_err() {
        return Err(TakeFault::Lane(LaneFault::NoMemory));
    }
    hand.push_reserved(bytes);
    Ok(work)
}

/// What a receive comes to.
pub(crate) fn received<V: Vdaf>(
    alloc: Global,
    place: Place,
    tasks: &Tasks<V>,
    known: Lookup<'_>,
    hand: &mut Vec<Bytes>,
    got: Result<Recv, AllocError>,
) -> Result<Taken, TakeFault>
    requires { 0 < place.lanes }
    ensures { Takes (env_of V.of_kind place tasks.now)
        (reverse known.entry.records.now) got result hand.old.items hand.new.items }
{
    match got {
        Err(AllocError) => Err(TakeFault::Lane(LaneFault::NoMemory)),
        Ok(Recv::Empty) => Ok(Taken::Nothing),
        Ok(Recv::Dropped) => Ok(Taken::Dropped),
        Ok(Recv::Held) => Ok(Taken::Held),
        Ok(Recv::Message(bytes)) => match take_in(alloc, place, tasks, known, hand, bytes) {
            Ok(work) => Ok(Taken::Work(work)),
            Err(fault) => Err(fault),
        },
    }
}
