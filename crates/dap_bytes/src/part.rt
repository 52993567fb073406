//! The parts of a node.
ghost use Rattle.std.specs.Prelude.{Some};
ghost use Rattle.dap_bytes.specs.Shown.{part_words};

use std::fmt;

/// A part of a node that keeps a journal of its own: its front, or the lane of a number.
/// It prints as `front` or `lane N`.
#[derive(Clone, Copy, Debug, PartialEq, Eq)]
pub enum Part {
    /// The node's one front, which keeps its tasks and its collections.
    Front,
    /// A lane, which keeps the reports of its identifiers, by its number from 0.
    Lane(u8),
}

impl fmt::Display for Part {
    ghost output = { λ part. Some (part_words part) };

    fn fmt<W: fmt::Write>(&self, f: &mut fmt::Formatter<W>) -> fmt::Result {
        match self {
            Part::Front => f.write_str("front"),
            Part::Lane(lane) => write!(f, "lane {lane}"),
        }
    }
}
