//! The lines of a script.

ghost use Rattle.std.specs.Prelude.{◌≡◌, IfOk};
ghost use Rattle.std.specs.List.{slice_split, list_all};
ghost use Rattle.std.specs.Option.{option_map};
ghost use Rattle.dap_script.specs.Line.{expiry_split, is_blank};
ghost use Rattle.dap_script.specs.Words.{texts, is_line_char, is_space};

use crate::fields::{bounded, buckets, node, octets, report, small};
use crate::kind::kind;
use crate::list::measurement;
use dap_bytes::{Bytes, GREATEST_MINIMUM, GREATEST_PRECISION, Id, LATEST_TIME, Name, Node, Span};
use std::alloc::{AllocError, Global};
use vdaf_api::{Kind, Measurement};

/// One line of a script.
#[derive(Debug, PartialEq, Eq, Drop)]
pub enum Line {
    /// An empty line or a comment, which begins with `#`.
    Blank,
    /// A task: its name, what it measures, how many reports a batch must have to be collected (1 to
    /// `GREATEST_MINIMUM`), the length of its buckets in units of time (1 to `GREATEST_PRECISION`), and the moment from
    /// which it takes no more reports (a time), if there is one.
    Task {
        name: Name,
        kind: Kind,
        min: u32,
        precision: u32,
        expires: Option<u64>,
    },
    /// The moment rises to a time (at most `LATEST_TIME`, as each time).
    Now {
        t: u64,
    },
    /// A client's measurement: the task, the report's identifier, its time, the value that is measured, which is 1 to
    /// `MOST_NUMBERS` numbers, and the seed from which the client draws.
    Measure {
        name: Name,
        id: Id,
        time: u64,
        value: Measurement,
        seed: [u8; 16],
    },
    /// A client's report, as its bytes, which are at least one.
    Upload {
        report: Bytes,
    },
    /// The collection of the task's batch that begins at a time and has so many buckets.
    Collect {
        name: Name,
        span: Span,
    },
    /// The node restarts.
    Restart {
        node: Node,
    },
}

impl Line {
    ghost use Rattle.dap_script.specs.Line.{task_with, task_until, task_of, now_of, measure_with, measure_of, upload_of, collect_of, restart_of};
    ghost use Rattle.dap_script.specs.Line.{line_of, line_of_words};

    fn task_with(
        name: &str,
        kind: Kind,
        min: &str,
        precision: &str,
        expires: Option<u64>,
    ) -> Option<Line>
        ensures { result ≡ task_with name.now kind min.now precision.now expires }
    {
        Some(Line::Task {
            name: Name::new(name.as_bytes())?,
            kind,
            min: small(min, GREATEST_MINIMUM)?,
            precision: small(precision, GREATEST_PRECISION)?,
            expires,
        })
    }

    /// `NAME KIND.. MIN PRECISION`, of a task that expires so.
    fn task_until(
        alloc: Global,
        fields: &[&str],
        expires: Option<u64>,
    ) -> Result<Option<Line>, AllocError>
        ensures { IfOk result (λ line. line ≡ task_until expires (texts fields.now)) }
    {
        let [name, words @ .., min, precision] = fields else {
            return Ok(None);
        };
        match kind(alloc, words)? {
            None => Ok(None),
            Some(kind) => Ok(Line::task_with(name, kind, min, precision, expires)),
        }
    }

    /// `NAME KIND.. MIN PRECISION [expires T]`
    fn task(alloc: Global, fields: &[&str]) -> Result<Option<Line>, AllocError>
        ensures { IfOk result (λ line. line ≡ task_of (texts fields.now)) }
    {
        let Some((others, t)) = split_expiry(fields) else {
            return Line::task_until(alloc, fields, None);
        };
        match bounded(t, 0, LATEST_TIME) {
            None => Ok(None),
            Some(t) => Line::task_until(alloc, others, Some(t)),
        }
    }

    /// `T`
    fn now(fields: &[&str]) -> Option<Line>
        ensures { result ≡ now_of (texts fields.now) }
    {
        let [t] = *fields else {
            return None;
        };
        Some(Line::Now {
            t: bounded(t, 0, LATEST_TIME)?,
        })
    }

    fn measure_with(
        name: &str,
        id: &str,
        time: &str,
        value: Measurement,
        seed: &str,
    ) -> Option<Line>
        ensures { result ≡ measure_with name.now id.now time.now value seed.now }
    {
        Some(Line::Measure {
            name: Name::new(name.as_bytes())?,
            id: octets(id)?,
            time: bounded(time, 0, LATEST_TIME)?,
            value,
            seed: octets(seed)?,
        })
    }

    /// `NAME ID TIME VALUE SEED`
    fn measure(alloc: Global, fields: &[&str]) -> Result<Option<Line>, AllocError>
        ensures { IfOk result (λ line. line ≡ measure_of (texts fields.now)) }
    {
        let [name, id, time, value, seed] = *fields else {
            return Ok(None);
        };
        match measurement(alloc, value)? {
            None => Ok(None),
            Some(value) => Ok(Line::measure_with(name, id, time, value, seed)),
        }
    }

    /// `BASE64`
    fn upload(alloc: Global, fields: &[&str]) -> Result<Option<Line>, AllocError>
        ensures { IfOk result (λ line. line ≡ upload_of (texts fields.now)) }
    {
        let [text] = *fields else {
            return Ok(None);
        };
        match report(alloc, text)? {
            None => Ok(None),
            Some(report) => Ok(Some(Line::Upload { report })),
        }
    }

    /// `NAME START [BUCKETS]`
    fn collect(fields: &[&str]) -> Option<Line>
        ensures { result ≡ collect_of (texts fields.now) }
    {
        let [name, start, rest @ ..] = fields else {
            return None;
        };
        Some(Line::Collect {
            name: Name::new(name.as_bytes())?,
            span: Span {
                start: bounded(start, 0, LATEST_TIME)?,
                buckets: buckets(rest)?,
            },
        })
    }

    /// `NODE`
    fn restart(fields: &[&str]) -> Option<Line>
        ensures { result ≡ restart_of (texts fields.now) }
    {
        let [word] = *fields else {
            return None;
        };
        Some(Line::Restart { node: node(word)? })
    }

    fn from_words(alloc: Global, words: &[&str]) -> Result<Option<Line>, AllocError>
        ensures { IfOk result (λ line. line ≡ line_of_words (texts words.now)) }
    {
        let [keyword, fields @ ..] = words else {
            return Ok(None);
        };
        match *keyword {
            "task" => Line::task(alloc, fields),
            "now" => Ok(Line::now(fields)),
            "measure" => Line::measure(alloc, fields),
            "upload" => Line::upload(alloc, fields),
            "collect" => Ok(Line::collect(fields)),
            "restart" => Ok(Line::restart(fields)),
            _ => Ok(None),
        }
    }

    /// The line that is written so, without its end, if there is one.
    pub fn parse(alloc: Global, text: &[u8]) -> Result<Option<Line>, AllocError>
        ensures { IfOk result (λ line. line ≡ line_of text.now) }
    {
        if !are_line_chars(text) {
            return Ok(None);
        }
        if is_blank(text) {
            return Ok(Some(Line::Blank));
        }
        match str::from_utf8(text) {
            Ok(text) => {
                let words = words(alloc, text)?;
                Line::from_words(alloc, &words)
            }
            Err(_) => Ok(None),
        }
    }
}

/// The fields of a task line before `expires T`, and T, where it ends so.
fn split_expiry<'a>(fields: &'a [&'a str]) -> Option<(&'a [&'a str], &'a str)>
    ensures { option_map (λ parts. (texts parts.0.now, parts.1.now)) result ≡ expiry_split (texts fields.now) }
{
    let [others @ .., keyword, t] = fields else {
        return None;
    };
    if *keyword == "expires" {
        Some((others, *t))
    } else {
        None
    }
}

/// ASCII characters but the line feed.
fn are_line_chars(text: &[u8]) -> bool
    ensures { result ≡ list_all is_line_char text.now }
{
    text.iter().all(|byte| *byte < 128 && *byte != b'\n')
}

/// Empty or a comment.
fn is_blank(text: &[u8]) -> bool
    ensures { result ≡ is_blank text.now }
{
    matches!(text, [] | [b'#', ..])
}

fn words(alloc: Global, text: &str) -> Result<Vec<&str>, AllocError>
    ensures { IfOk result (λ words. texts words.items ≡ slice_split is_space text.now) }
{
    text.split(' ').collect(alloc)
}
