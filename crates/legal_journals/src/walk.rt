//! Whether a journal is legal, by one walk with its index.

ghost use Rattle.std.specs.Prelude.{◌≡◌, ℕ, ◌++◌, ◌∷◌, [], List, IfOk, IsTrue, OnOk};
ghost use Rattle.lane_records.specs.Records.{record_};
ghost use Rattle.dap_bytes.specs.declared.node.Node.{Node};
ghost use Rattle.dap_bytes.specs.declared.part.Part.{Part};
ghost use Rattle.lane_records.specs.declared.record.Record.{Record};
ghost use Rattle.legal_journals.specs.Legal.{IsLegalJournal, IsFirstRefused};
ghost use Rattle.legal_journals.specs.LegalTests.{part_may, may};
ghost use Rattle.legal_journals.specs.Places.{AreOpens, HaveOneNumber};

use crate::front_rules::{HelperFrontIndex, LeaderFrontIndex};
use crate::helper_index::HelperIndex;
use crate::leader_index::LeaderIndex;
use crate::opens::{Opens, lanes_in};
use dap_bytes::{Node, Part};
use dap_messages::Spelled;
use lane_records::Record;
use std::alloc::{AllocError, Global};

/// The place, from 0, of the first record of a journal, the oldest first, that the rules of the node's part refuse after
/// those before it. None where the journal is legal.
pub fn legal(
    alloc: Global,
    part: Part,
    node: Node,
    records: &[Record],
) -> Result<Option<u64>, AllocError>
    ensures { IfOk result (λ place. IsFirstRefused node part records.now place) }
{
    match (node, part) {
        (Node::Leader, Part::Lane(lane)) => first_refused(LeaderIndex::new(alloc), lane, records),
        (Node::Leader, Part::Front) => first_refused(LeaderFrontIndex::new(), 0, records),
        (Node::Helper, Part::Lane(lane)) => first_refused(HelperIndex::new(alloc), lane, records),
        (Node::Helper, Part::Front) => first_refused(HelperFrontIndex::new(), 0, records),
    }
}

/// The index of the records of a journal, by which the next one is judged.
pub(crate) trait PartIndex: Drop {
    /// The node whose journal it is.
    ghost node: { Node };

    /// The part whose journal it is: of a lane, by its number.
    ghost part: { ℕ → Part };

    /// It is the index of these records, the oldest first.
    ghost indexes: { Self → List Record → Type 0 };

    /// What the journal's Opens say.
    fn opens(&self) -> Opens
        ensures { (records : List Record) → indexes self.now records → AreOpens result records };

    /// Whether the record may follow those before it, by the rules of the part.
    fn part_may(&self, lane: u8, x: &Record, earlier: &[Record]) -> bool
        requires indexed { indexes self.now earlier.now }
        requires legal { IsLegalJournal node (part lane) earlier.now }
        requires numbered { HaveOneNumber earlier.now }
        requires allowed { IsTrue (record_.allowed x.now) }
        ensures { result ≡ part_may node (part lane) x.now earlier.now };

    /// One record more, the newest.
    fn add(&mut self, x: &Record) -> Result<(), AllocError>
        ensures { OnOk result
            ((records : List Record) → indexes self.old records → indexes self.new (records ++ x.now ∷ [])) };
}

/// The place of the first record that is refused, with the index of no record to begin with.
fn first_refused<I: PartIndex>(
    index: I,
    lane: u8,
    records: &[Record],
) -> Result<Option<u64>, AllocError>
    requires { I.indexes index [] }
    ensures { IfOk result (λ place. IsFirstRefused I.node (I.part lane) records.now place) }
{
    let mut index = index;
    for place in 0..records.len() {
        if !may(&index, lane, &records[place], &records[..place]) {
            return Ok(Some(place as u64));
        }
        index.add(&records[place])?;
    }
    Ok(None)
}

/// Whether the record may follow those before it, which are legal and which the index is of.
fn may<I: PartIndex>(index: &I, lane: u8, x: &Record, earlier: &[Record]) -> bool
    requires indexed { I.indexes index.now earlier.now }
    requires legal { IsLegalJournal I.node (I.part lane) earlier.now }
    ensures { result ≡ may I.node (I.part lane) x.now earlier.now }
{
    x.is_allowed()
        && (lanes_in(x).is_some() || index.opens().has_open())
        && index.part_may(lane, x, earlier)
}
