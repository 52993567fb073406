//! Laws about the definitions, as contracts.
ghost use Rattle.dap_disk.specs.Plan.{CallsCountFromOne};
ghost use Rattle.dap_disk.specs.Steps.{StepsAreImages};

/// A law: what the steps of `write_at` and `cut` make of the bytes at the last sync is what the disk model allows: the
/// length is any between the least and the greatest since then, each byte in a written range and each at or past that
/// least length is anything, and the other bytes stay.
#[tactic(auto, using(crate::specs::ImageLaws::steps_are_images))]
pub fn image_law()
    ensures { StepsAreImages }
{}

/// A law: the calls of a disk in memory count from 1, and restarts don't count among them.
#[tactic(auto, using(crate::proofs::Plans::calls_count_from_one))]
pub fn calls_law()
    ensures { CallsCountFromOne }
{}
