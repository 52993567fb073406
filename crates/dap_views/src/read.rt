//! The fields of a request as slices of the input. None of these readers takes memory. After a refusal nothing is said of
//! the cursor.

ghost use Rattle.std.specs.Prelude.{◌≡◌, ◌≤◌, None, length};
ghost use Rattle.dap_messages.specs.Forms.{half, job};
ghost use Rattle.dap_messages.specs.Grammar.{bytes, cells, is_above, item, items_at, name};
ghost use Rattle.dap_messages.specs.Spelled.{Finds};
ghost use Rattle.dap_views.specs.Parts.{FindsPart, FindsPartAt, FindsSlice, Passes};

use crate::part::PartView;
use dap_bytes::{Cursor, Id, LATEST_TIME, Name};
use dap_messages::{Form, JobNo, MOST_HELPER, MOST_PUBLIC, cut_off, read_u8, read_u32, read_u64};

/// The number of a job.
pub fn read_job(cursor: &mut Cursor<'_>) -> Result<JobNo, Form>
    ensures { Finds job cursor.old result cursor.new }
{
    let lane = read_u8(cursor, 0, u8::MAX)?;
    let incarnation = read_u64(cursor, 0, u64::MAX)?;
    let counter = read_u64(cursor, 0, u64::MAX)?;
    Ok(JobNo {
        lane,
        incarnation,
        counter,
    })
}

/// A u8 length and the name of a task.
#[tactic(auto, using(crate::proofs::Places::input_past))]
pub fn take_name<'a>(cursor: &mut Cursor<'a>) -> Result<&'a [u8], Form>
    ensures { FindsSlice name cursor.old result cursor.new }
{
    let len = read_u8(cursor, 1, 32)?;
    let at = cursor.place();
    let Some(part) = cursor.take(len as usize) else {
        return Err(cut_off(cursor));
    };
    match Name::new(part) {
        None => Err(Form { at }),
        Some(_) => Ok(part),
    }
}

/// A u32 length of at most `longest`, and that many bytes.
#[tactic(auto, using(crate::proofs::Places::input_past))]
fn take_bytes<'a>(cursor: &mut Cursor<'a>, longest: u32) -> Result<&'a [u8], Form>
    ensures { FindsSlice (bytes longest) cursor.old result cursor.new }
{
    let len = read_u32(cursor, 0, longest)?;
    match cursor.take(len as usize) {
        None => Err(cut_off(cursor)),
        Some(share) => Ok(share),
    }
}

/// An identifier that is above the last one.
#[tactic(auto, using(crate::proofs::Places::input_past))]
fn read_id(cursor: &mut Cursor<'_>, last: Option<Id>) -> Result<Id, Form>
    ensures { Finds (cells 16 (is_above last)) cursor.old result cursor.new }
{
    let at = cursor.place();
    let Some(part) = cursor.take(16) else {
        return Err(cut_off(cursor));
    };
    if !is_above(last, part) {
        return Err(Form { at });
    }
    let mut id = [0; 16];
    id.copy_from_slice(part);
    Ok(id)
}

fn is_above(last: Option<Id>, id: &[u8]) -> bool
    ensures { result ≡ is_above last id.now }
{
    match last {
        None => true,
        Some(last) => last.as_slice().cmp(id).is_lt(),
    }
}

/// What a request says of one report, whose identifier is above the last one.
pub fn read_part<'a>(cursor: &mut Cursor<'a>, last: Option<Id>) -> Result<PartView<'a>, Form>
    ensures { FindsPart (item half last) cursor.old result cursor.new }
{
    let id = read_id(cursor, last)?;
    let time = read_u64(cursor, 0, LATEST_TIME)?;
    let public = take_bytes(cursor, MOST_PUBLIC)?;
    let helper = take_bytes(cursor, MOST_HELPER)?;
    Ok(PartView {
        id,
        time,
        public,
        helper,
    })
}

/// Goes past so many parts, whose identifiers ascend.
pub fn pass_parts(cursor: &mut Cursor<'_>, count: u16) -> Result<(), Form>
    ensures { Passes (items_at half None count cursor.old) result cursor.new }
{
    let mut last = None;
    for _ in 0..count {
        let part = read_part(cursor, last)?;
        last = Some(part.id);
    }
    Ok(())
}

/// What a request says of the report that stands at a place of it, and the place behind.
pub fn read_part_at<'a>(bytes: &'a [u8], place: usize) -> Result<(PartView<'a>, usize), Form>
    requires { place ≤ length bytes.now }
    ensures { FindsPartAt bytes.now place result }
{
    let mut cursor = Cursor::new(bytes);
    cursor.take(place);
    let part = read_part(&mut cursor, None)?;
    Ok((part, cursor.place()))
}
