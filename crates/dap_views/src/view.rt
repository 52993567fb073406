//! Messages as requests.

ghost use Rattle.dap_views.specs.Request.{Views};

use crate::read::{pass_parts, read_job, take_name};
use crate::request::RequestView;
use dap_bytes::Cursor;
use dap_messages::{Form, MOST_ITEMS, read_u16};

/// The request that the bytes spell, all of them, as a view that stands before its first part. `Form` exactly where they
/// spell none: at the place that `read_message` gives where the first byte is 01, and at 0 where it isn't.
pub fn view_request<'a>(bytes: &'a [u8]) -> Result<RequestView<'a>, Form>
    ensures { Views bytes.now result }
{
    let mut cursor = Cursor::new(bytes);
    if cursor.u8() != Some(1) {
        return Err(Form { at: 0 });
    }
    let job = read_job(&mut cursor)?;
    let name = take_name(&mut cursor)?;
    let count = read_u16(&mut cursor, 1, MOST_ITEMS)?;
    let place = cursor.place();
    pass_parts(&mut cursor, count)?;
    if !cursor.rest().is_empty() {
        return Err(Form { at: cursor.place() });
    }
    Ok(RequestView::at(bytes, job, name, place, count))
}
