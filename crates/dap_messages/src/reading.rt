//! Reports and messages as whole inputs.

ghost use Rattle.std.specs.Prelude.{◌≡◌, IsTrue, IfOk};
ghost use Rattle.dap_messages.specs.Messages.{report, message};
ghost use Rattle.dap_messages.specs.Spelled.{Reads, IsOnly};

use crate::fault::ReadFault;
use crate::message::Message;
use crate::report::Report;
use crate::spelled::{read_all, write_all};
use std::alloc::{AllocError, Global};

/// The report that the bytes spell, all of them: `Form` with the place of the first fault exactly where there is none.
pub fn read_report(alloc: Global, bytes: &[u8]) -> Result<Report, ReadFault>
    // What is read is spelled so.
    ensures read_as_spelled { IfOk result (λ r. IsTrue (report.allowed r) × (bytes.now ≡ report.spell r)) }
    // What is spelled so is read, unless memory runs out.
    ensures every_spelling_is_read { (r : Report) → IsTrue (report.allowed r)
        → bytes.now ≡ report.spell r → IsOnly r result }
    // Which place it is.
    ensures first_fault { Reads report bytes.now result }
{
    read_all(alloc, bytes)
}

/// The message that the bytes spell, all of them: `Form` with the place of the first fault exactly where there is none.
pub fn read_message(alloc: Global, bytes: &[u8]) -> Result<Message, ReadFault>
    // What is read is spelled so.
    ensures read_as_spelled { IfOk result (λ m. IsTrue (message.allowed m) × (bytes.now ≡ message.spell m)) }
    // What is spelled so is read, unless memory runs out.
    ensures every_spelling_is_read { (m : Message) → IsTrue (message.allowed m)
        → bytes.now ≡ message.spell m → IsOnly m result }
    // Which place it is.
    ensures first_fault { Reads message bytes.now result }
{
    read_all(alloc, bytes)
}

/// The one spelling of a report that has one.
pub fn write_report(alloc: Global, r: &Report) -> Result<Vec<u8>, AllocError>
    requires { IsTrue (report.allowed r.now) }
    ensures { IfOk result (λ out. out.items ≡ report.spell r.now) }
{
    write_all(alloc, r)
}

/// The one spelling of a message that has one.
pub fn write_message(alloc: Global, m: &Message) -> Result<Vec<u8>, AllocError>
    requires { IsTrue (message.allowed m.now) }
    ensures { IfOk result (λ out. out.items ≡ message.spell m.now) }
{
    write_all(alloc, m)
}
