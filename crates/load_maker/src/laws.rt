//! What the text of a load is to who reads it.

ghost use Rattle.std.specs.Prelude.{◌≡◌, ℕ, Ok};
ghost use Rattle.dap_script.specs.Script.{script_of};
ghost use Rattle.load_maker.specs.Load.{load_lines, load_text};

use dap_script::scripts_are_spelled;

/// A law: the text of a load is read as its lines: the task, its measurements, each in the ranges of its parts, and two
/// collections.
pub fn loads_are_scripts()
    ensures { (reports seed : ℕ) → script_of (load_text reports seed) ≡ Ok (load_lines reports seed) }
{
    scripts_are_spelled();
}
