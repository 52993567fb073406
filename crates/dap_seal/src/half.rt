//! The half of a report that one of the two aggregators has.

ghost use Rattle.std.specs.Prelude.{◌≡◌, ◌<◌, length, None, Ok, IfOk};
ghost use Rattle.std.specs.Option.{option_map};
ghost use Rattle.dap_messages.specs.declared.body.Step.TheVariants.{Failed};
ghost use Rattle.dap_messages.specs.declared.code.Code.{Code};
ghost use Rattle.dap_messages.specs.declared.code.Code.TheVariants.{HpkeDecryptError};
ghost use Rattle.vdaf_api.specs.declared.role.Role.TheVariants.{Leader, Helper};
ghost use Rattle.vdaf_api.specs.Verdict.{helper_step, or_invalid, out_of};
ghost use Rattle.dap_seal.specs.Reports.{helper_seen, leader_seen};
ghost use Rattle.dap_seal.specs.Steps.{item_from, message_with, or_code, or_zero, outcome_from, share_from, step_told};

use crate::cmac_seal::CmacSeal;
use crate::head::Head;
use crate::seal::{OpenFault, Seal};
use crate::tag::TAG_LEN;
use crate::values::{combined, finished};
use dap_bytes::Bytes;
use dap_messages::{Code, Step};
use dap_tasks::Task;
use std::alloc::{AllocError, Global};
use vdaf_api::{PrepFault, Role, SealKeys, Step as Prepared, Vdaf};

/// What an aggregator has of a report: its keys, and what was sealed for it under the report's head.
#[derive(Clone, Copy, Debug)]
pub struct SealedHalf<'a> {
    /// The key with which both aggregators verify the task's reports.
    pub verify: &'a [u8; 16],
    /// The aggregator's sealing keys of the task.
    pub keys: &'a SealKeys,
    /// What the sealed share is bound to.
    pub head: &'a Head,
    /// The aggregator's sealed input share.
    pub sealed: &'a [u8],
}

/// A half whose preparing was begun.
#[derive(Drop)]
pub enum Begun<P> {
    /// The state from which its out share follows, and its prep share.
    Ready(P, Vec<u8>),
    /// It failed with this code: it doesn't open, or has no prep share.
    Failed(Code),
}

impl<'a> SealedHalf<'a> {
    ghost use Rattle.dap_seal.specs.Halves.{half_as};

    /// The leader's half of a report under a task. It takes no memory.
    pub fn of_leader(task: &'a Task, head: &'a Head, sealed: &'a [u8]) -> SealedHalf<'a>
        ensures { half_as Leader result ≡ leader_seen task.now head.now sealed.now }
    {
        SealedHalf {
            verify: &task.verify,
            keys: &task.leader,
            head,
            sealed,
        }
    }

    /// The helper's half of a report under a task. It takes no memory.
    pub fn of_helper(task: &'a Task, head: &'a Head, sealed: &'a [u8]) -> SealedHalf<'a>
        ensures { half_as Helper result ≡ helper_seen task.now head.now sealed.now }
    {
        SealedHalf {
            verify: &task.verify,
            keys: &task.helper,
            head,
            sealed,
        }
    }
}

impl SealedHalf<'_> {
    ghost use Rattle.dap_seal.specs.declared.half.Begun.TheVariants as begun;
    ghost use Rattle.dap_seal.specs.Halves.{Begins, half_as, opening};

    /// The input share that was sealed for an aggregator; none exactly where the half doesn't open. Too few bytes for a
    /// tag are told before memory is asked for.
    #[tactic(auto, using(crate::proofs::Halves::opening_half))]
    pub fn open(&self, alloc: Global, role: Role) -> Result<Option<Vec<u8>>, AllocError>
        ensures opens { IfOk result (λ share. option_map (λ v. v.items) share ≡ opening role (half_as role self.now)) }
        ensures short { length self.now.sealed.now < TAG_LEN → result ≡ Ok None }
    {
        match CmacSeal::new(self.keys, role).open(alloc, self.head, self.sealed) {
            Ok(share) => Ok(Some(share)),
            Err(OpenFault::Tag) => Ok(None),
            Err(OpenFault::NoMemory) => Err(AllocError),
        }
    }

    /// Opens the half for an aggregator and begins to prepare it. Too few bytes for a tag are told before memory is
    /// asked for.
    #[tactic(auto, using(crate::proofs::Halves::closed, crate::proofs::Halves::unprepared, crate::proofs::Halves::ready))]
    pub fn begin<V: Vdaf>(
        &self,
        alloc: Global,
        vdaf: &V,
        role: Role,
    ) -> Result<Begun<V::Prep>, AllocError>
        ensures begins { IfOk result (Begins V.finish_of (V.functions vdaf.now) role (half_as role self.now)) }
        ensures short { length self.now.sealed.now < TAG_LEN → result ≡ Ok (begun.Failed HpkeDecryptError) }
    {
        let Some(share) = self.open(alloc, role)? else {
            return Ok(Begun::Failed(Code::HpkeDecryptError));
        };
        let public = self.head.public.as_slice();
        match vdaf.init(alloc, role, self.verify, &self.head.id, public, &share) {
            Ok((prep, share)) => Ok(Begun::Ready(prep, share)),
            Err(PrepFault::Invalid) => Ok(Begun::Failed(Code::VdafPrepError)),
            Err(PrepFault::NoMemory) => Err(AllocError),
        }
    }

    /// The helper's step: its prep share, or a code.
    #[tactic(auto, using(crate::proofs::Halves::helper_step_begun))]
    pub fn helper_step<V: Vdaf>(&self, alloc: Global, vdaf: &V) -> Result<Prepared, AllocError>
        ensures { IfOk result (λ step. step ≡ helper_step (V.functions vdaf.now) (half_as Helper self.now)) }
    {
        match self.begin(alloc, vdaf, Role::Helper)? {
            Begun::Ready(_, share) => Ok(Prepared::Continued(Bytes::new(share))),
            Begun::Failed(code) => Ok(Prepared::Failed(code.byte())),
        }
    }

    /// The leader's item for the helper's step: that step's code, which is handed on before memory is asked for, else the
    /// leader's own, else the prep message.
    #[tactic(auto, using(crate::proofs::Halves::failed_item, crate::proofs::Halves::ready_item))]
    pub fn leader_item<V: Vdaf>(
        &self,
        alloc: Global,
        vdaf: &V,
        step: &Step,
    ) -> Result<Step, AllocError>
        ensures item { IfOk result
            (λ item. item ≡ item_from (V.functions vdaf.now) (half_as Leader self.now) step.now) }
        ensures failed { (code : Code) → step.now ≡ Failed code → result ≡ Ok (Failed code) }
    {
        let theirs = match step {
            Step::Continued(theirs) => theirs,
            Step::Failed(code) => return Ok(Step::Failed(*code)),
        };
        match self.begin(alloc, vdaf, Role::Leader)? {
            Begun::Ready(prep, ours) => message_of(alloc, vdaf, &prep, &ours, theirs.as_slice()),
            Begun::Failed(code) => Ok(Step::Failed(code)),
        }
    }

    /// An aggregator's out share after a prep message; none exactly where it has none.
    pub fn out_share<V: Vdaf>(
        &self,
        alloc: Global,
        vdaf: &V,
        role: Role,
        message: &[u8],
    ) -> Result<Option<Vec<u8>>, AllocError>
        ensures { IfOk result (λ share. option_map (λ v. v.items) share
            ≡ out_of (V.functions vdaf.now) role (half_as role self.now) (opening role (half_as role self.now)) message.now) }
    {
        match self.begin(alloc, vdaf, role)? {
            Begun::Ready(prep, _) => finished(alloc, vdaf, &prep, message),
            Begun::Failed(_) => Ok(None),
        }
    }

    /// The leader's share of its item: its out share after the prep message, or the zero share where it has none.
    pub fn leader_share<V: Vdaf>(
        &self,
        alloc: Global,
        vdaf: &V,
        item: &Step,
    ) -> Result<Bytes, AllocError>
        ensures { IfOk result (λ share. share ≡ share_from (V.functions vdaf.now) (half_as Leader self.now) item.now) }
    {
        let Step::Continued(message) = item else {
            return share_or_zero(alloc, vdaf, None);
        };
        let out = self.out_share(alloc, vdaf, Role::Leader, message.as_slice())?;
        share_or_zero(alloc, vdaf, out)
    }

    /// What the leader's item comes to at the helper: its out share, or a code, which is its own step's, else the
    /// item's, else that of a prep message with which it has none.
    #[tactic(auto, using(crate::proofs::Halves::outcome_failed, crate::proofs::Halves::outcome_barred, crate::proofs::Halves::outcome_finished))]
    pub fn helper_outcome<V: Vdaf>(
        &self,
        alloc: Global,
        vdaf: &V,
        item: &Step,
    ) -> Result<Result<Bytes, Code>, AllocError>
        ensures { IfOk result (λ outcome. outcome
            ≡ outcome_from (V.functions vdaf.now) (half_as Helper self.now) item.now) }
    {
        let prep = match self.begin(alloc, vdaf, Role::Helper)? {
            Begun::Ready(prep, _) => prep,
            Begun::Failed(code) => return Ok(Err(code)),
        };
        match item {
            Step::Continued(message) => outcome_of(alloc, vdaf, &prep, message.as_slice()),
            Step::Failed(code) => Ok(Err(*code)),
        }
    }
}

/// An out share, or the zero share where there is none.
fn share_or_zero<V: Vdaf>(
    alloc: Global,
    vdaf: &V,
    out: Option<Vec<u8>>,
) -> Result<Bytes, AllocError>
    ensures { IfOk result (λ share. share ≡ or_zero (V.functions vdaf.now) (option_map (λ v. v.items) out)) }
{
    match out {
        Some(share) => Ok(Bytes::new(share)),
        None => Ok(Bytes::new(vdaf.zero(alloc)?)),
    }
}

/// A state's out share after a prep message, or the code of one with which it has none.
fn outcome_of<V: Vdaf>(
    alloc: Global,
    vdaf: &V,
    prep: &V::Prep,
    message: &[u8],
) -> Result<Result<Bytes, Code>, AllocError>
    ensures { IfOk result (λ outcome. outcome ≡ or_code (V.finish_of prep.now message.now)) }
{
    match finished(alloc, vdaf, prep, message)? {
        Some(share) => Ok(Ok(Bytes::new(share))),
        None => Ok(Err(Code::VdafPrepError)),
    }
}

/// The prep message of both prep shares, where the leader's own out share follows from it, or the code.
fn message_of<V: Vdaf>(
    alloc: Global,
    vdaf: &V,
    prep: &V::Prep,
    ours: &[u8],
    theirs: &[u8],
) -> Result<Step, AllocError>
    ensures { IfOk result (λ step. step
        ≡ step_told (or_invalid (message_with (V.functions vdaf.now) (V.finish_of prep.now) ours.now theirs.now))) }
{
    let Some(message) = combined(alloc, vdaf, ours, theirs)? else {
        return Ok(Step::Failed(Code::VdafPrepError));
    };
    match finished(alloc, vdaf, prep, &message)? {
        Some(_) => Ok(Step::Continued(Bytes::new(message))),
        None => Ok(Step::Failed(Code::VdafPrepError)),
    }
}
