//! The script: what the run is told to do, as a list of lines.
//!
//! A script is ASCII text of `task`, `now`, `measure`, `upload`, `collect` and `restart` lines, of empty lines and of
//! comments. The layers above use `read_script_beside`, whose answer is the function `script_beside` of the names that
//! tasks may not have and the script's bytes, and the laws that tie this function to the spelling; `is_longer`; and
//! `print_task`, which prints a task as its line, with `put_span` and `put_number` for other printed lines.
#![tactic(auto)]

mod count;
mod fault;
mod fields;
mod kind;
mod laws;
mod line;
mod list;
mod print;
mod reading;
mod script;

pub use count::is_longer;
pub use fault::ScriptFault;
pub use fields::{number, small};
pub use laws::{
    lines_are_spelled, one_bucket_need_not_be_said, refusals_name_the_first_line,
    scripts_are_spelled,
};
pub use line::Line;
pub use print::{print_task, put_number, put_span};
pub use reading::{read_script, read_script_beside};

#[cfg(test)]
mod tests;
