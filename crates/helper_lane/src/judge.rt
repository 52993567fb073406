//! Whether a lane refuses a message, and what it finds for one that it doesn't refuse.

ghost use Rattle.std.specs.Prelude.{◌≡◌, ◌<◌, ◌∷◌, reverse, Ok, List, ℕ, true};
ghost use Rattle.std.specs.Option.{option_map};
ghost use Rattle.dap_bytes.specs.Name.{IsName};
ghost use Rattle.dap_messages.specs.declared.job.JobNo.{JobNo};
ghost use Rattle.dap_messages.specs.Messages.{cont_req_of};
ghost use Rattle.dap_views.specs.Request.{request_of};
ghost use Rattle.dap_views.specs.Whole.{spells_request};
ghost use Rattle.helper_lane.specs.Judged.{Checks, Judges, JudgesCont, JudgesInit};
ghost use Rattle.helper_lane.specs.Refusals.{env_of};

use crate::found::Found;
use crate::lookup::Lookup;
use crate::parts::{are_here, is_mine, same_ids, same_start};
use crate::refusal::{CheckFault, TakeFault, TakeRefusal};
use dap_bytes::Name;
use dap_messages::{Items, JobNo, Message, ReadFault, Step, Tagged, read_message};
use dap_tasks::{Task, Tasks};
use dap_views::{RequestView, view_request};
use lane_records::{LaneFault, Place};
use std::alloc::Global;
use vdaf_api::Vdaf;

/// Why a request whose parts are yet to come is refused, or its task. It takes no memory.
fn check_request<'a, V: Vdaf>(
    place: Place,
    tasks: &'a Tasks<V>,
    known: Lookup<'_>,
    name: &Name,
    request: RequestView<'_>,
) -> Result<&'a Task, CheckFault>
    requires { 0 < place.lanes }
    ensures { JudgesInit (env_of V.of_kind place tasks.now) (reverse known.entry.records.now) request.entry.job name.now
        (request_of request.entry).parts result }
{
    let job = request.job();
    if !is_mine(place, &job, request) {
        return Err(CheckFault::WrongLane);
    }
    let Some((task, _)) = tasks.find(name) else {
        return Err(CheckFault::NoTask);
    };
    match known.start_of(&job) {
        None => Ok(task),
        Some((other, halves)) => {
            if same_start(other, halves.as_slice(), name, request) {
                Ok(task)
            } else {
                Err(CheckFault::JobConflict)
            }
        }
    }
}

/// Why a ContReq is refused, or what is found for it. It takes no memory.
fn check_cont<'a, V: Vdaf>(
    place: Place,
    tasks: &'a Tasks<V>,
    known: Lookup<'a>,
    job: &JobNo,
    steps: &[Tagged<Step>],
) -> Result<Found<'a>, TakeRefusal>
    requires { 0 < place.lanes }
    ensures { JudgesCont (env_of V.of_kind place tasks.now) (reverse known.entry.records.now) job.now steps.now result }
{
    if !(job.lane == place.lane && are_here(place, steps)) {
        return Err(TakeRefusal::WrongLane);
    }
    let Some((name, halves)) = known.start_of(job) else {
        return Err(TakeRefusal::NoJob);
    };
    if !same_ids(halves.as_slice(), steps) {
        return Err(TakeRefusal::ReportsDiffer);
    }
    let Some((task, _)) = tasks.find(name) else {
        return Err(TakeRefusal::NoJob);
    };
    Ok(Found {
        task,
        started: Some(halves),
    })
}

/// The name of a request, which is one.
fn name_in(request: &RequestView<'_>) -> Name
    requires { IsName request.now.name.now }
    ensures { result ≡ request.now.name.now }
{
    match Name::new(request.name()) {
        Some(name) => name,
        None => unreachable!(),
    }
}

/// Job and steps of a ContReq; none of another message.
pub(crate) fn cont_req(message: &Message) -> Option<(&JobNo, &Items<Step>)>
    ensures { option_map (λ m. (m.0.now, m.1.now)) result ≡ cont_req_of message.now }
{
    match message {
        Message::ContReq(job, steps) => Some((job, steps)),
        _ => None,
    }
}

/// Why the request that the bytes spell is refused. It takes no memory.
pub(crate) fn check_whole<V: Vdaf>(
    place: Place,
    tasks: &Tasks<V>,
    known: Lookup<'_>,
    bytes: &[u8],
) -> Result<(), CheckFault>
    requires lanes { 0 < place.lanes }
    requires request { (job : JobNo) × (name : List ℕ) × (spells_request bytes.now job name ≡ true) }
    ensures { Checks (env_of V.of_kind place tasks.now) (reverse known.entry.records.now) bytes.now result }
{
    let Ok(whole) = view_request(bytes) else {
        unreachable!();
    };
    match check_request(place, tasks, known, &name_in(&whole), whole) {
        Ok(_) => Ok(()),
        Err(why) => Err(why),
    }
}

/// Why an InitReq is refused, or what is found for it. It takes no memory.
fn judge_init<'a, V: Vdaf>(
    place: Place,
    tasks: &'a Tasks<V>,
    known: Lookup<'a>,
    bytes: &[u8],
) -> Result<Found<'a>, TakeFault>
    requires lanes { 0 < place.lanes }
    requires first { (rest : List ℕ) × (bytes.now ≡ 1 ∷ rest) }
    ensures { Judges (env_of V.of_kind place tasks.now) (reverse known.entry.records.now) bytes.now result }
{
    let request = match view_request(bytes) {
        Ok(request) => request,
        Err(form) => return Err(TakeFault::Refused(TakeRefusal::Form { at: form.at })),
    };
    let name = name_in(&request);
    match check_request(place, tasks, known, &name, request) {
        Ok(task) => Ok(Found {
            task,
            started: None,
        }),
        Err(why) => Err(TakeFault::Refused(why.as_taken())),
    }
}

/// Why a ContReq is refused, or what is found for it.
fn judge_cont<'a, V: Vdaf>(
    alloc: Global,
    place: Place,
    tasks: &'a Tasks<V>,
    known: Lookup<'a>,
    bytes: &[u8],
) -> Result<Found<'a>, TakeFault>
    requires lanes { 0 < place.lanes }
    requires first { (rest : List ℕ) × (bytes.now ≡ 3 ∷ rest) }
    ensures { Judges (env_of V.of_kind place tasks.now) (reverse known.entry.records.now) bytes.now result }
{
    let message = match read_message(alloc, bytes) {
        Ok(message) => message,
        Err(ReadFault::Form { at }) => {
            return Err(TakeFault::Refused(TakeRefusal::Form { at }));
        }
        Err(ReadFault::NoMemory) => return Err(TakeFault::Lane(LaneFault::NoMemory)),
    };
    let Some((job, steps)) = cont_req(&message) else {
        return Err(TakeFault::Refused(TakeRefusal::Form { at: 0 }));
    };
    match check_cont(place, tasks, known, job, steps.as_slice()) {
        Ok(found) => Ok(found),
        Err(why) => Err(TakeFault::Refused(why)),
    }
}

/// Why a message is refused, or what is found for it.
pub(crate) fn judge<'a, V: Vdaf>(
    alloc: Global,
    place: Place,
    tasks: &'a Tasks<V>,
    known: Lookup<'a>,
    bytes: &[u8],
) -> Result<Found<'a>, TakeFault>
    requires { 0 < place.lanes }
    ensures { Judges (env_of V.of_kind place tasks.now) (reverse known.entry.records.now) bytes.now result }
{
    match bytes {
        [1, ..] => judge_init(place, tasks, known, bytes),
        [3, ..] => judge_cont(alloc, place, tasks, known, bytes),
        _ => Err(TakeFault::Refused(TakeRefusal::Form { at: 0 })),
    }
}
