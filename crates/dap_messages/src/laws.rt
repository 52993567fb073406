//! Laws of the forms.

ghost use Rattle.std.specs.Prelude.{◌≡◌, ◌≤◌, IsTrue, Ok, List, length};
ghost use Rattle.dap_messages.specs.declared.item.Tagged.{Tagged};
ghost use Rattle.dap_messages.specs.Grammar.{items, whole};
ghost use Rattle.dap_messages.specs.Items.{ids_of, IsAscending};
ghost use Rattle.dap_messages.specs.Messages.{report, message};

use crate::item::MOST_ITEMS;
use crate::message::{MOST_MESSAGE, Message};
use crate::report::{MOST_REPORT, Report};
use crate::spelled::Spelled;

/// A law: no list of fields that the forms allow is longer than `MOST_MESSAGE` bytes, and no report longer than
/// `MOST_REPORT`. So a longer input has a fault.
pub fn forms_are_bounded()
    ensures messages { (m : Message) → IsTrue (message.allowed m) → length (message.spell m) ≤ MOST_MESSAGE }
    ensures reports { (r : Report) → IsTrue (report.allowed r) → length (report.spell r) ≤ MOST_REPORT }
{}

/// A law: what is spelled is read again, so that no two values have one spelling.
pub fn spellings_are_read()
    ensures messages { (m : Message) → IsTrue (message.allowed m) → whole message (message.spell m) ≡ Ok m }
    ensures reports { (r : Report) → IsTrue (report.allowed r) → whole report (report.spell r) ≡ Ok r }
{}

/// A law: a list of items has 1 to `MOST_ITEMS` of them, whose identifiers strictly ascend.
pub fn items_ascend<B: Spelled>()
    ensures { (xs : List (Tagged B)) → IsTrue ((items B.grammar).allowed xs)
        → (1 ≤ length xs) × (length xs ≤ MOST_ITEMS) × IsAscending (ids_of xs) }
{}
