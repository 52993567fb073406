//! The words of the command line.

ghost use Rattle.std.specs.Prelude.{◌≡◌, ◌↔◌, ℕ, List, Ok, Err, map};
ghost use Rattle.dap_program.specs.Words.{PlainCommand, IsCommand, IsFaultyWord, word_texts, names_file, file_behind, ending, load_behind, command_of, plain, plain_answer, plain_file};

use dap_script::{number, small};
use load_maker::MOST_MEASUREMENTS;

/// What the words ask for.
#[derive(Clone, Copy, Debug, PartialEq, Eq)]
pub enum Command<'a> {
    /// `run [TASKFILE]`: a script is run, with the tasks of the file.
    Run { tasks: Option<&'a str> },
    /// `check TASKFILE`: the tasks of the file are printed.
    Check { tasks: &'a str },
    /// `load N SEED`: a script of N measurements is printed, of 1 to 50,000.
    Load { reports: u32, seed: u64 },
    /// `--help`: what the words and the lines of a script may be is printed.
    Help,
    /// `--version`: the program's name and version are printed.
    Version,
}

/// Whether a word may name a task file.
fn names_file(word: &str) -> bool
    ensures { result ≡ names_file word.now }
{
    !matches!(word, "" | "lanes" | "workers" | "loss" | "store")
}

/// The task file that the words behind the first name. An `Err` has the number of the word that no command has there.
fn file_behind(words: &[String]) -> Result<Option<&str>, u32>
    ensures { plain_file result ≡ file_behind (word_texts words.now) }
{
    match words {
        [] => Ok(None),
        [file, others @ ..] => {
            if !names_file(file.as_str()) {
                return Err(2);
            }
            if !others.is_empty() {
                return Err(3);
            }
            Ok(Some(file.as_str()))
        }
    }
}

/// A command behind whose words nothing stands, or the number of the word that stands there.
fn ending<'a>(command: Command<'a>, word: u32, others: &[String]) -> Result<Command<'a>, u32>
    ensures { plain_answer result ≡ ending (plain command.entry) word (word_texts others.now) }
{
    if !others.is_empty() {
        return Err(word);
    }
    Ok(command)
}

/// The load that the words behind the first ask for, or the number of the word that no command has there.
fn load_behind(words: &[String]) -> Result<Command<'_>, u32>
    ensures { plain_answer result ≡ load_behind (word_texts words.now) }
{
    let [reports, others @ ..] = words else {
        return Err(2);
    };
    let Some(reports) = small(reports.as_str(), MOST_MEASUREMENTS) else {
        return Err(2);
    };
    let [seed, others @ ..] = others else {
        return Err(3);
    };
    let Some(seed) = number(seed.as_str()) else {
        return Err(3);
    };
    ending(Command::Load { reports, seed }, 4, others)
}

/// The command that the words are. An `Err` has the number of the first word that no command has there, counted from 1.
pub fn hear(words: &[String]) -> Result<Command<'_>, u32>
    ensures { plain_answer result ≡ command_of (word_texts words.now) }
{
    let [verb, others @ ..] = words else {
        return Err(1);
    };
    match verb.as_str() {
        "run" => {
            let tasks = file_behind(others)?;
            Ok(Command::Run { tasks })
        }
        "check" => match file_behind(others)? {
            Some(tasks) => Ok(Command::Check { tasks }),
            None => Err(2),
        },
        "load" => load_behind(others),
        "--help" => ending(Command::Help, 2, others),
        "--version" => ending(Command::Version, 2, others),
        _ => Err(1),
    }
}

/// A law: the words are read as a command exactly where they are the command's. Else the faulty word is the one after
/// their longest prefix that is also a prefix of a command.
pub fn words_are_commands()
    ensures command { (words : List (List ℕ)) (command : PlainCommand)
        → (command_of words ≡ Ok command) ↔ IsCommand words command }
    ensures faulty { (words : List (List ℕ)) (word : ℕ)
        → (command_of words ≡ Err word) ↔ IsFaultyWord words word }
{}
