//! Types whose values stand in bytes.

ghost use Rattle.std.specs.Prelude.{◌≡◌, ◌++◌, IsTrue, OnOk, IfOk};
ghost use Rattle.dap_messages.specs.Grammar.{Grammar};
ghost use Rattle.dap_messages.specs.Lawful.{Lawful};
ghost use Rattle.dap_messages.specs.Spelled.{Gives, Reads, IsOnly};

use crate::fault::ReadFault;
use dap_bytes::Cursor;
use std::alloc::{AllocError, Global};

/// A type whose values stand in bytes by a grammar.
pub trait Spelled: Drop {
    /// How its values stand in bytes.
    ghost grammar: { Grammar Self };

    /// The value at the cursor, which is behind it then: `Form` at the first fault exactly where there is none;
    /// nothing is said of the cursor then.
    fn read(alloc: Global, cursor: &mut Cursor<'_>) -> Result<Self, ReadFault>
        ensures { Gives grammar cursor.old result cursor.new };

    /// Appends the value's one spelling. After a refusal a part of it may have been appended.
    fn put(&self, out: &mut Vec<u8>) -> Result<(), AllocError>
        requires { IsTrue (grammar.allowed self.now) }
        ensures { OnOk result (out.new.items ≡ out.old.items ++ grammar.spell self.now) };

    /// Whether the value has a spelling. It takes no memory.
    fn is_allowed(&self) -> bool
        ensures { result ≡ grammar.allowed self.now };

    /// What is read is spelled so, what is spelled so is read, and spellings are bounded.
    ghost laws: { Lawful grammar };
}

/// The value that the bytes spell, all of them: `Form` with the place of the first fault exactly where there is none.
pub fn read_all<T: Spelled>(alloc: Global, bytes: &[u8]) -> Result<T, ReadFault>
    // What is read is spelled so.
    ensures read_as_spelled { IfOk result (λ x. IsTrue (T.grammar.allowed x) × (bytes.now ≡ T.grammar.spell x)) }
    // What is spelled so is read, unless memory runs out.
    ensures every_spelling_is_read { (x : T) → IsTrue (T.grammar.allowed x)
        → bytes.now ≡ T.grammar.spell x → IsOnly x result }
    // Which place it is.
    ensures first_fault { Reads T.grammar bytes.now result }
{
    read_exact(alloc, bytes)
}

fn read_exact<T: Spelled>(alloc: Global, bytes: &[u8]) -> Result<T, ReadFault>
    ensures { Reads T.grammar bytes.now result }
{
    let mut cursor = Cursor::new(bytes);
    let value = T::read(alloc, &mut cursor)?;
    if !cursor.rest().is_empty() {
        return Err(ReadFault::Form { at: cursor.place() });
    }
    Ok(value)
}

/// The one spelling of a value that has one.
pub fn write_all<T: Spelled>(alloc: Global, value: &T) -> Result<Vec<u8>, AllocError>
    requires { IsTrue (T.grammar.allowed value.now) }
    ensures { IfOk result (λ out. out.items ≡ T.grammar.spell value.now) }
{
    let mut out = Vec::new(alloc);
    value.put(&mut out)?;
    Ok(out)
}
