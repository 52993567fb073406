//! Lists of items, one for each report of a job.

ghost use Rattle.std.specs.Prelude.{◌≡◌, ◌++◌, IsTrue, OnOk, None};
ghost use Rattle.dap_messages.specs.Grammar.{allowed_items, cells, is_above, item, items_at};
ghost use Rattle.dap_messages.specs.Spelled.{Finds, Gives, Answers};

use crate::fault::{Form, ReadFault};
use crate::fields::{cut_off, read_u16};
use crate::spelled::Spelled;
use dap_bytes::{Cursor, Id, put_u16};
use std::alloc::{AllocError, Global};
use std::marker::Model;

/// The most reports of a job.
pub const MOST_ITEMS: u16 = 64;

/// What a message or record says of one report of a job.
#[derive(Debug, Drop)]
pub struct Tagged<B> {
    /// The report's identifier.
    pub id: Id,
    /// What is said of it.
    pub body: B,
}

impl<B> Tagged<B> {
    /// The report's identifier.
    pub fn id(&self) -> Id
        ensures { result ≡ self.now.id }
    {
        self.id
    }
}

/// A copy is equal where a copy of its body is.
impl<B: Clone> Clone for Tagged<B> {
    ghost use Rattle.std.specs.Prelude.{◌≡◌};

    ghost is_clone = { λ item copy. ((x y : B) → B.is_clone x y → y ≡ x) → copy ≡ item };

    fn clone(&self) -> Result<Tagged<B>, AllocError> {
        let body = self.body.clone()?;
        Ok(Tagged { id: self.id, body })
    }
}

/// The items of a message or record: 1 to `MOST_ITEMS` where they have a spelling, with strictly ascending identifiers.
/// Contracts see the list of them.
#[derive(Debug, Drop)]
pub struct Items<B> {
    items: Vec<Tagged<B>>,
}

impl<B> Model for Items<B> {
    ghost use Rattle.std.specs.Prelude.{List};
    ghost use Rattle.dap_messages.specs.declared.item.Tagged.{Tagged};

    ghost Value = { List (Tagged B) };

    ghost view = { λ a. a.items.items };
}

/// A copy is equal where copies of the bodies are.
impl<B: Clone> Clone for Items<B> {
    ghost use Rattle.std.specs.Prelude.{◌≡◌};

    ghost is_clone = { λ items copy. ((x y : B) → B.is_clone x y → y ≡ x) → copy ≡ items };

    fn clone(&self) -> Result<Items<B>, AllocError> {
        let items = self.items.clone()?;
        Ok(Items { items })
    }
}

impl<B> Items<B> {
    /// The items of a `Vec`. It takes no memory.
    pub fn new(items: Vec<Tagged<B>>) -> Self
        ensures { result ≡ items.items }
    {
        Items { items }
    }

    /// The `Vec` again. It takes no memory.
    pub fn into_vec(self) -> Vec<Tagged<B>>
        ensures { result.items ≡ self }
    {
        let Items { items } = self;
        items
    }

    /// The items in their order.
    pub fn as_slice(&self) -> &[Tagged<B>]
        ensures { result.now ≡ self.now }
    {
        &self.items
    }
}

impl<B: Spelled> Spelled for Items<B> {
    ghost use Rattle.dap_messages.specs.Grammar.{items};
    ghost use Rattle.dap_messages.specs.Laws.{items_lawful};

    ghost grammar = { items B.grammar };

    ghost laws = { items_lawful B.grammar B.laws };

    fn read(alloc: Global, cursor: &mut Cursor<'_>) -> Result<Self, ReadFault> {
        let count = read_u16(cursor, 1, MOST_ITEMS)?;
        read_items(alloc, cursor, count)
    }

    fn put(&self, out: &mut Vec<u8>) -> Result<(), AllocError> {
        let items = self.as_slice();
        put_u16(out, items.len() as u16)?;
        for one in items {
            put_item(out, one)?;
        }
        Ok(())
    }

    fn is_allowed(&self) -> bool {
        let items = self.as_slice();
        (1..=MOST_ITEMS as usize).contains(&items.len()) && are_allowed(items)
    }
}

/// So many items, whose identifiers ascend.
fn read_items<B: Spelled>(
    alloc: Global,
    cursor: &mut Cursor<'_>,
    count: u16,
) -> Result<Items<B>, ReadFault>
    ensures { Answers (items_at B.grammar None count cursor.old) result cursor.new }
{
    let mut items = Vec::new(alloc);
    let mut last = None;
    for _ in 0..count {
        let one = read_item(alloc, cursor, last)?;
        last = Some(one.id());
        items.push(one)?;
    }
    Ok(Items::new(items))
}

/// An item whose identifier is above the last one.
fn read_item<B: Spelled>(
    alloc: Global,
    cursor: &mut Cursor<'_>,
    last: Option<Id>,
) -> Result<Tagged<B>, ReadFault>
    ensures { Gives (item B.grammar last) cursor.old result cursor.new }
{
    let id = read_id(cursor, last)?;
    let body = B::read(alloc, cursor)?;
    Ok(Tagged { id, body })
}

/// An identifier that is above the last one.
#[tactic(auto, using(crate::specs::Laws::input_past))]
fn read_id(cursor: &mut Cursor<'_>, last: Option<Id>) -> Result<Id, Form>
    ensures { Finds (cells 16 (is_above last)) cursor.old result cursor.new }
{
    let at = cursor.place();
    let Some(part) = cursor.take(16) else {
        return Err(cut_off(cursor));
    };
    if !is_above(last, part) {
        return Err(Form { at });
    }
    let mut id = [0; 16];
    id.copy_from_slice(part);
    Ok(id)
}

/// Whether the identifiers ascend and each body has a spelling.
fn are_allowed<B: Spelled>(items: &[Tagged<B>]) -> bool
    ensures { result ≡ allowed_items B.grammar None items.now }
{
    let mut last = None;
    for one in items {
        if !is_item(last, one) {
            return false;
        }
        last = Some(one.id());
    }
    true
}

/// Whether the item has a spelling behind the identifier before it.
fn is_item<B: Spelled>(last: Option<Id>, one: &Tagged<B>) -> bool
    ensures { result ≡ (item B.grammar last).allowed one.now }
{
    is_above(last, &one.id) && one.body.is_allowed()
}

fn is_above(last: Option<Id>, id: &[u8]) -> bool
    ensures { result ≡ is_above last id.now }
{
    match last {
        None => true,
        Some(last) => last.as_slice().cmp(id).is_lt(),
    }
}

fn put_item<B: Spelled>(out: &mut Vec<u8>, one: &Tagged<B>) -> Result<(), AllocError>
    requires { IsTrue (B.grammar.allowed one.now.body) }
    ensures { OnOk result (out.new.items ≡ out.old.items ++ (item B.grammar None).spell one.now) }
{
    out.extend_from_slice(&one.id)?;
    one.body.put(out)
}
