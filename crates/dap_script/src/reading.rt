//! Reading a whole script.

ghost use Rattle.std.specs.Prelude.{◌≡◌, ◌≤◌, ◌<◌, [], length, IfOk};
ghost use Rattle.dap_bytes.specs.declared.limits.TheConstants.{LONGEST_SCRIPT};
ghost use Rattle.dap_script.specs.Reads.{Reads};
ghost use Rattle.dap_script.specs.Script.{is_longer, script_beside, script_of};
ghost use Rattle.dap_script.specs.Spelling.{IsScript, IsScriptBeside};

use crate::fault::ScriptFault;
use crate::line::Line;
use crate::script::{line_after, lines};
use dap_bytes::{LONGEST_SCRIPT, Name};
use std::alloc::Global;

/// The lines of a script, whose bytes are at most `LONGEST_SCRIPT`.
///
/// Refused comes exactly where the bytes are no script: it names the first line, counted from 1, that isn't in the
/// grammar, or that names the task of a line before it.
pub fn read_script(alloc: Global, bytes: &[u8]) -> Result<Vec<Line>, ScriptFault>
    requires { length bytes.now ≤ LONGEST_SCRIPT }
    ensures lines { Reads result (script_of bytes.now) }
    ensures script { IfOk result (λ lines. IsScript lines.items) }
    ensures count { IfOk result (λ lines. length lines.items ≤ length bytes.now) }
{
    read_script_beside(alloc, &[], bytes)
}

/// The lines of a script beside names that its tasks may not have. Its bytes are at most `LONGEST_SCRIPT`.
///
/// Refused comes exactly where the bytes are no script beside these names: it names the first line, counted from 1,
/// that isn't in the grammar, or whose task has one of the names or is that of a line before it.
pub fn read_script_beside(
    alloc: Global,
    names: &[Name],
    bytes: &[u8],
) -> Result<Vec<Line>, ScriptFault>
    requires { length bytes.now ≤ LONGEST_SCRIPT }
    ensures lines { Reads result (script_beside names.now bytes.now) }
    ensures script { IfOk result (λ lines. IsScriptBeside names.now lines.items) }
    ensures count { IfOk result (λ lines. length lines.items ≤ length bytes.now) }
{
    let mut script = Vec::new(alloc);
    for text in &lines(alloc, bytes)? {
        match line_after(alloc, names, &script, text)? {
            Some(line) => script.push(line)?,
            None => {
                return Err(ScriptFault::Refused {
                    line: script.len() as u32 + 1,
                });
            }
        }
    }
    Ok(script)
}
