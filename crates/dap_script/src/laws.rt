//! What is read is spelled so, and what is spelled so is read.

ghost use Rattle.std.specs.Prelude.{◌≡◌, ◌↔◌, List, ℕ, Some, Ok, Err};
ghost use Rattle.dap_bytes.specs.Spans.{one_bucket};
ghost use Rattle.dap_script.specs.Line.{line_of};
ghost use Rattle.dap_script.specs.Script.{script_beside, script_of};
ghost use Rattle.dap_script.specs.Spelling.{CollectsOne, SpellsLine, SpellsLines, IsScript, SpellsScript, IsFirstFault};
ghost use Rattle.dap_script.specs.declared.line.Line.{Line as PlainLine};
ghost use Rattle.dap_script.specs.declared.line.Line.TheVariants.{Collect};

/// A law: a text is read as a line exactly where it spells this line, with each part in its range, or is a comment.
pub fn lines_are_spelled()
    ensures { (text : List ℕ) (line : PlainLine) → (line_of text ≡ Some line) ↔ SpellsLine text line }
{}

/// A law: a text is read as the collection of one bucket exactly where it says so with its 1 or without it.
pub fn one_bucket_need_not_be_said()
    ensures { (text name : List ℕ) (start : ℕ)
        → (line_of text ≡ Some (Collect name (one_bucket start))) ↔ CollectsOne text name start }
{}

/// A law: bytes are read as a script's lines beside some names exactly where they spell these lines, in this order,
/// each with a line feed at its end, which the last may lack, and before which a carriage return may stand; and where
/// no two task lines have the same name, and none has one of the names. Without names the last adds nothing.
pub fn scripts_are_spelled()
    ensures beside { (names : List (List ℕ)) (bytes : List ℕ) (lines : List PlainLine)
        → (script_beside names bytes ≡ Ok lines) ↔ SpellsScript names bytes lines }
    ensures alone { (bytes : List ℕ) (lines : List PlainLine)
        → (script_of bytes ≡ Ok lines) ↔ (SpellsLines bytes lines × IsScript lines) }
{}

/// A law: the line that a refusal names is the first for which the script up to and with it is none beside these names.
pub fn refusals_name_the_first_line()
    ensures { (names : List (List ℕ)) (bytes : List ℕ) (line : ℕ)
        → (script_beside names bytes ≡ Err line) ↔ IsFirstFault names bytes line }
{}
