//! JSON lists of rows, and listings.
ghost use Rattle.std.specs.Prelude.{◌≡◌, ◌++◌, [], OnOk, IfOk};
ghost use Rattle.text_values.specs.Lists.{with_commas};
ghost use Rattle.console_listings.specs.Lists as spec;

use console_answers::append_quoted;
use mud_base::{Bytes, Memory};
use std::alloc::Global;

/// A row of a listing.
pub trait JsonRow {
    ghost use Rattle.std.specs.Prelude.{◌≡◌, ◌++◌, ℕ, List, OnOk};

    ghost text: { Self → List ℕ };

    /// Adds the row's JSON text.
    fn append(&self, alloc: Global, body: &mut Bytes) -> Result<(), Memory>
        ensures { OnOk result (body.new ≡ body.old ++ text self.now) };
}

/// Adds a comma, before any element but the first.
#[tactic(auto, unfolding(crate::specs::Lists::comma_before))]
fn append_comma(body: &mut Bytes, index: usize) -> Result<(), Memory>
    ensures { OnOk result (body.new ≡ body.old ++ spec.comma_before index) }
{
    if index > 0 {
        return body.push(b',');
    }
    Ok(())
}

/// Adds an element, behind a comma unless it is the first.
#[tactic(auto, unfolding(crate::specs::Lists::element_text))]
fn append_element<T: JsonRow>(
    alloc: Global,
    body: &mut Bytes,
    index: usize,
    row: &T,
) -> Result<(), Memory>
    ensures { OnOk result (body.new ≡ body.old ++ spec.element_text T.text index row.now) }
{
    append_comma(body, index)?;
    row.append(alloc, body)
}

/// Adds the elements of a list, with commas between them.
#[tactic(auto, unfolding(text_values::specs::Lists::with_commas), using(crate::proofs::Elements::items_next, crate::proofs::Elements::items_all))]
fn append_items<T: JsonRow>(alloc: Global, body: &mut Bytes, rows: &[T]) -> Result<(), Memory>
    ensures { OnOk result (body.new ≡ body.old ++ with_commas T.text rows.now) }
{
    'rows: for (index, row) in rows.iter().enumerate() {
        append_element(alloc, body, index, row)?;
    }
    Ok(())
}

/// Adds a list.
#[tactic(auto, unfolding(crate::specs::Lists::list_text))]
pub(crate) fn append_list<T: JsonRow>(
    alloc: Global,
    body: &mut Bytes,
    rows: &[T],
) -> Result<(), Memory>
    ensures { OnOk result (body.new ≡ body.old ++ spec.list_text T.text rows.now) }
{
    body.push(b'[')?;
    append_items(alloc, body, rows)?;
    body.push(b']')
}

/// For how many octets of each row memory is taken ahead. Most rows of Things, which are the most
/// that are listed, have fewer.
const ROW_ROOM: usize = 160;

/// An empty body, with memory for so many rows.
fn body_for(alloc: Global, rows: usize) -> Result<Bytes, Memory>
    ensures { IfOk result (λ body. body ≡ []) }
{
    let octets = Vec::with_capacity(alloc, rows.saturating_mul(ROW_ROOM))?;
    Ok(Bytes::from_vec(octets))
}

/// The object whose one member, of this name, is the list of these rows.
#[tactic(auto, unfolding(crate::specs::Lists::listing_body))]
pub(crate) fn listing_body<T: JsonRow>(
    alloc: Global,
    name: &[u8],
    rows: &[T],
) -> Result<Bytes, Memory>
    ensures { IfOk result (λ body. body ≡ spec.listing_body T.text name.now rows.now) }
{
    let mut body = body_for(alloc, rows.len())?;
    body.push(b'{')?;
    append_quoted(&mut body, name)?;
    body.push(b':')?;
    append_list(alloc, &mut body, rows)?;
    body.push(b'}')?;
    Ok(body)
}
