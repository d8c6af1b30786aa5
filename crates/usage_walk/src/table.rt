//! Objects that are read by a table. The table has a row for each member that may stand in the
//! object, and the rows are read in their order: so what is known there and what is read are one
//! list.
ghost use Rattle.mud_base.specs.Readings.{Gives};
ghost use Rattle.serde_json.specs.Data.{Data};
ghost use Rattle.serde_json.specs.View.{view};
ghost use Rattle.std.specs.Prelude.{List, ℕ};
ghost use Rattle.usage_walk.specs.Reading.{Reading};
ghost use Rattle.usage_walk.specs.declared.member.Member.{Member};
ghost use Rattle.usage_walk.specs.Tables as spec;

use crate::fault::FileFault;
use crate::kinds::object_where_there;
use crate::member::Member;
use crate::others::all_known;
use crate::path::under;
use crate::row::Row;
use serde_json::Value;
use std::alloc::Global;

/// Where a member is read.
#[derive(Clone, Copy)]
pub struct Spot<'a> {
    /// For what is made of it.
    pub alloc: Global,
    /// The object that it may stand in.
    pub object: &'a Value,
    /// The path of the object.
    pub path: &'a [u8],
    /// The member.
    pub member: Member,
}

/// Ways in which the members of an object are read.
pub trait Reads: Copy {
    /// What the members mean together.
    type Meaning: Drop;

    ghost reading: { Self → List ℕ → Member → Data → Self.Meaning → Reading Self.Meaning };

    /// Reads a member, behind what came of the members before it. After a refusal nothing is known
    /// of what came.
    fn read(self, spot: Spot<'_>, so_far: &mut Self::Meaning) -> Result<(), FileFault>
        ensures { Gives (λ _. so_far.new) result (reading self spot.entry.path.now spot.entry.member (view spot.entry.object.now) so_far.old) };
}

/// Reads the member of a row, behind what came of the members before it.
#[tactic(auto, unfolding(crate::specs::Tables::row_of))]
fn read_row<H: Reads>(
    alloc: Global,
    object: &Value,
    path: &[u8],
    row: Row<H>,
    so_far: &mut H::Meaning,
) -> Result<(), FileFault>
    ensures { Gives (λ _. so_far.new) result (spec.row_of H.reading path.now (view object.now) so_far.old row) }
{
    let spot = Spot {
        alloc,
        object,
        path,
        member: row.member,
    };
    row.how.read(spot, so_far)
}

/// Reads the members of these rows in their order, behind what came of those before them.
#[tactic(auto, unfolding(crate::specs::Tables::rows_of), using(mud_base::proofs::Readings::each_taken, mud_base::proofs::Readings::each_refused, mud_base::proofs::Readings::each_past))]
pub fn read_rows<H: Reads>(
    alloc: Global,
    object: &Value,
    path: &[u8],
    rows: &[Row<H>],
    so_far: H::Meaning,
) -> Result<H::Meaning, FileFault>
    ensures { Gives (λ m. m) result (spec.rows_of H.reading path.now rows.now (view object.now) so_far) }
{
    let mut meaning = so_far;
    'rows: for row in rows {
        read_row(alloc, object, path, *row, &mut meaning)?;
    }
    Ok(meaning)
}

/// Reads the object at this path by its table. Where no member stands, it means this nothing.
#[tactic(auto, unfolding(crate::specs::Tables::table_of), using(mud_base::proofs::Readings::answer_bind))]
fn read_table<H: Reads>(
    alloc: Global,
    object: &Value,
    path: &[u8],
    rows: &[Row<H>],
    nothing: H::Meaning,
) -> Result<H::Meaning, FileFault>
    ensures { Gives (λ m. m) result (spec.table_of H.reading path.now rows.now (view object.now) nothing) }
{
    all_known(alloc, object, path, rows)?;
    read_rows(alloc, object, path, rows, nothing)
}

/// Reads the object that a member is by its table, where it is there.
#[tactic(auto, unfolding(crate::specs::Tables::container_at), using(mud_base::proofs::Readings::answer_bind, mud_base::proofs::Readings::answer_absent, mud_base::proofs::Readings::answer_there))]
pub fn read_container<H: Reads>(
    spot: Spot<'_>,
    rows: &[Row<H>],
    nothing: H::Meaning,
) -> Result<Option<H::Meaning>, FileFault>
    ensures { Gives (λ m. m) result (spec.container_at H.reading rows.now nothing spot.entry.path.now spot.entry.member (view spot.entry.object.now)) }
{
    let found = object_where_there(spot.alloc, Some(spot.object), spot.path, spot.member)?;
    let Some(container) = found else {
        return Ok(None);
    };
    let path = under(spot.alloc, spot.path, spot.member)?;
    let meaning = read_table(spot.alloc, container, path.octets(), rows, nothing)?;
    Ok(Some(meaning))
}
