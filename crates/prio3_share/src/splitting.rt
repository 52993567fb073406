//! How a vector is split into two halves.
ghost use Rattle.std.specs.Prelude.{◌≡◌, ◌≤◌, [], length, IfOk};
ghost use Rattle.prio3_share.specs.Texts.{drawn_for};
ghost use Rattle.prio3_share.specs.Sharing.{differences};
ghost use Rattle.prio3_share.specs.Splits.{Splits};
ghost use Rattle.prio3_share.specs.Steps.{halved};
ghost use Rattle.prio3_share.specs.Seen.{seen};

use crate::based::Based;
use crate::faults::of_draw;
use crate::halves::Halves;
use crate::streams::draw_for;
use crate::usage::Usage;
use field_laws::Field;
use std::alloc::{AllocError, Global};
use vdaf_api::ShardFault;

/// The differences of two vectors' elements, place by place.
fn differences<F: Field>(alloc: Global, xs: &[F], ys: &[F]) -> Result<Vec<F>, AllocError>
    requires { length xs.now ≡ length ys.now }
    ensures { IfOk result (λ v. v.items ≡ differences F.ring xs.now ys.now) }
{
    let mut out = Vec::new(alloc);
    for (i, x) in xs.iter().enumerate() {
        out.push(x.sub(ys[i]))?;
    }
    Ok(out)
}

/// Elements drawn from the stream of a key for a use: `Spent` exactly where the drawing is.
pub(crate) fn drawn<F: Field>(
    alloc: Global,
    kind: u8,
    key: &[u8; 16],
    usage: Usage,
    n: usize,
) -> Result<Vec<F>, ShardFault>
    requires { n ≤ 8192 }
    ensures drawn { Splits (λ v. v.items) result (drawn_for ⟦<F as Based>⟧.base kind key.now usage [] n) }
    ensures size { IfOk result (λ v. length v.items ≡ n) }
{
    draw_for(alloc, kind, key, usage, &[], n).map_err(of_draw)
}

/// A vector in two halves: the helper's is drawn from the stream of a key for a use, and the leader's is what that
/// leaves of the whole. `Spent` exactly where the drawing is.
#[tactic(auto, unfolding(crate::specs::Steps::halved))]
pub(crate) fn halves_of<F: Field>(
    alloc: Global,
    kind: u8,
    key: &[u8; 16],
    usage: Usage,
    whole: &[F],
) -> Result<Halves<F>, ShardFault>
    requires { length whole.now ≤ 8192 }
    ensures { Splits seen result (halved ⟦<F as Based>⟧.base kind key.now usage (length whole.now) whole.now) }
{
    let helper = drawn(alloc, kind, key, usage, whole.len())?;
    let leader = differences(alloc, whole, &helper)?;
    Ok(Halves { leader, helper })
}
