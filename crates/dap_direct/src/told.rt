//! What is printed so far.

ghost use Rattle.std.specs.Prelude.{◌≡◌, ◌++◌, length, take, if◌then◌else◌, [], OnOk};
ghost use Rattle.std.specs.Option.{option_to_list};
ghost use Rattle.dap_model.specs.Limits.{ends_segment};
ghost use Rattle.dap_model.specs.Printed.{text_of};

use dap_model::{Printed, print_line};
use dap_script::Line;
use std::alloc::{AllocError, Global};

/// What is printed so far, and how many bytes of it are told: those of the segments that have ended.
#[derive(Debug, Drop)]
pub struct Told {
    pub text: Vec<u8>,
    pub whole: usize,
}

/// Whether a line ends a segment.
fn ends_segment(line: &Line) -> bool
    ensures { result ≡ ends_segment line.now }
{
    matches!(line, Line::Collect { .. } | Line::Restart { .. })
}

impl Told {
    /// Nothing. It takes no memory.
    pub fn new(alloc: Global) -> Told
        ensures text { result.text.items ≡ [] }
        ensures whole { result.whole ≡ 0 }
    {
        Told {
            text: Vec::new(alloc),
            whole: 0,
        }
    }

    /// Adds what a line prints.
    pub fn add(
        &mut self,
        alloc: Global,
        line: &Line,
        printed: Option<Printed>,
    ) -> Result<(), AllocError>
        ensures text { OnOk result (self.new.text.items ≡ self.old.text.items ++ text_of (option_to_list printed)) }
        ensures whole { OnOk result
            (self.new.whole ≡ (if ends_segment line.now then length self.new.text.items else self.old.whole)) }
    {
        if let Some(printed) = printed {
            print_line(alloc, &printed, &mut self.text)?;
        }
        if ends_segment(line) {
            self.whole = self.text.len();
        }
        Ok(())
    }

    /// The text of the segments that have ended. It takes no memory.
    pub fn into_whole(self) -> Vec<u8>
        ensures { result.items ≡ take self.whole self.text.items }
    {
        let Told { mut text, whole } = self;
        text.truncate(whole);
        text
    }
}
