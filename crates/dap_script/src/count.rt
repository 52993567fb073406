//! How many lines a text has.

ghost use Rattle.std.specs.Prelude.{◌≡◌, length};
ghost use Rattle.std.specs.Char.{is_newline};
ghost use Rattle.std.specs.List.{count_by};
ghost use Rattle.dap_script.specs.Script.{is_longer, lines_of};

fn line_feeds(bytes: &[u8]) -> usize
    ensures { result ≡ count_by is_newline bytes.now }
{
    bytes.iter().filter(|byte| **byte == b'\n').count()
}

/// One line for each line feed, and one more where bytes stand behind the last.
fn line_count(bytes: &[u8]) -> usize
    ensures { result ≡ length (lines_of bytes.now) }
{
    let ended = line_feeds(bytes);
    match bytes.last() {
        None => ended,
        Some(last) => { if *last == b'\n' { ended } else { ended + 1 } }
    }
}

/// Whether a text has more lines than this. It takes no memory.
pub fn is_longer(bytes: &[u8], most: u32) -> bool
    ensures { result ≡ is_longer bytes.now most }
{
    line_count(bytes) > most as usize
}
