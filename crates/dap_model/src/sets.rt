//! Laws of states as sets: the order of accepted reports and of collected batches changes nothing.

ghost use Rattle.std.specs.Prelude.{◌≡◌, ℕ, List};
ghost use Rattle.std.specs.List.{All};
ghost use Rattle.vdaf_api.specs.Functions.{Functions};
ghost use Rattle.vdaf_api.specs.declared.kind.Kind.{Kind};
ghost use Rattle.dap_script.specs.Spelling.{IsInRange};
ghost use Rattle.dap_script.specs.declared.line.Line.{Line as PlainLine};
ghost use Rattle.dap_model.specs.Limits.{full_line_of, passed_in, text_before};
ghost use Rattle.dap_model.specs.Run.{model_text, opening_of, printed_from, state_after};
ghost use Rattle.dap_model.specs.SameStates.{IsValid, SameOutcome, SameState};
ghost use Rattle.dap_model.specs.State.{State};
ghost use Rattle.dap_model.specs.Step.{step};
ghost use Rattle.dap_model.specs.declared.limits.Limits.{Limits as PlainLimits};

/// A law: each line prints the same in two states that are the same as sets, and moves to such states. So do any lines. Each
/// line keeps that a state is valid.
pub fn same_states_move_alike()
    ensures line { (f : Kind → Functions) (a b : State) (number : ℕ) (line : PlainLine)
        → IsValid a → IsValid b → SameState a b → SameOutcome (step f a number line) (step f b number line) }
    ensures valid { (f : Kind → Functions) (state : State) (number : ℕ) (line : PlainLine)
        → IsInRange line → IsValid state → IsValid (step f state number line).0 }
    ensures printed { (f : Kind → Functions) (a b : State) (number : ℕ) (lines : List PlainLine)
        → All IsInRange lines → IsValid a → IsValid b → SameState a b
        → printed_from f b number lines ≡ printed_from f a number lines }
    ensures after { (f : Kind → Functions) (a b : State) (number : ℕ) (lines : List PlainLine)
        → All IsInRange lines → IsValid a → IsValid b → SameState a b
        → SameState (state_after f a number lines) (state_after f b number lines) }
{}

/// A law: a script prints the same from two states that are the same as sets, and passes limits alike: with the same line
/// and the same limit, before which the same is told.
pub fn same_states_print_the_same()
    ensures text { (f : Kind → Functions) (a b : State) (lines : List PlainLine)
        → All IsInRange lines → IsValid (opening_of a lines) → IsValid (opening_of b lines) → SameState a b
        → model_text f b lines ≡ model_text f a lines }
    ensures before { (f : Kind → Functions) (a b : State) (lines : List PlainLine) (number : ℕ)
        → All IsInRange lines → IsValid (opening_of a lines) → IsValid (opening_of b lines) → SameState a b
        → text_before f b lines number ≡ text_before f a lines number }
    ensures passed { (f : Kind → Functions) (limits : PlainLimits) (a b : State) (lines : List PlainLine)
        → SameState a b → passed_in f limits b lines ≡ passed_in f limits a lines }
    ensures full { (most : ℕ) (a b : State) (lines : List PlainLine)
        → SameState a b → full_line_of most b lines ≡ full_line_of most a lines }
{}
