//! Laws of records.

ghost use Rattle.std.specs.Prelude.{◌≡◌, ℕ, ◌+◌, ◌≤◌, ◌<◌, IsTrue, List, Ok, length};
ghost use Rattle.std.specs.List.{All};
ghost use Rattle.dap_messages.specs.Grammar.{whole};
ghost use Rattle.vdaf_api.specs.TaskNumbers.{AreTaskNumbers, IsExpiry};
ghost use Rattle.lane_records.specs.declared.record.Record.{Record};
ghost use Rattle.lane_records.specs.declared.stored.StoredTask.{StoredTask};
ghost use Rattle.lane_records.specs.Records.{record_};
ghost use Rattle.lane_records.specs.Stored.{stored};

use dap_bytes::LONGEST_BLOCK;

/// The most bytes of a record.
pub const MOST_RECORD: usize = 4_098_102;

/// A law: a record has at most so many bytes. With the four bytes of its length it is within a block of a journal, so
/// that each record may be appended.
pub fn records_are_bounded()
    ensures bounded { (x : Record) → IsTrue (record_.allowed x) → length (record_.spell x) ≤ MOST_RECORD }
    ensures appended { (x : Record) → IsTrue (record_.allowed x) → 4 + length (record_.spell x) ≤ LONGEST_BLOCK }
{}

/// A law: what is spelled is read again, so that no two records have one spelling; and what is read from bytes has a
/// spelling, which is those bytes.
pub fn records_are_read()
    ensures again { (x : Record) → IsTrue (record_.allowed x) → whole record_ (record_.spell x) ≡ Ok x }
    ensures only { (text : List ℕ) (x : Record) → All (λ b. b < 256) text → whole record_ text ≡ Ok x
        → IsTrue (record_.allowed x) × (text ≡ record_.spell x) }
{}

/// A law: the kind, the minimum, the precision and the expiry of a Task record are within the ranges of a task.
pub fn stored_tasks_are_within_ranges()
    ensures numbers { (t : StoredTask) → IsTrue ((stored t.format).allowed t)
        → AreTaskNumbers t.kind t.min t.precision }
    ensures expiry { (t : StoredTask) → IsTrue ((stored t.format).allowed t) → IsExpiry t.expires }
{}
