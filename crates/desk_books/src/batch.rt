//! The batch by which a change is kept.
ghost use Rattle.std.specs.Prelude.{◌≡◌, IfOk};
ghost use Rattle.mud_world.specs.Items.{set_put};
ghost use Rattle.table_model.specs.BindItems.{stamp_item};
ghost use Rattle.desk_books.specs.Changes.{batch_of, stamp_after};

use item_codec::FieldWriter;
use item_codec::kinds::STAMP_KIND;
use mud_base::{Bytes, Listed, Memory, Moment};
use mud_world::{Item, Put};
use std::alloc::Global;

/// The version of its body.
const VERSION: u64 = 1;

/// The put of the stamp.
#[tactic(auto, unfolding(mud_world::specs::Items::set_put, table_model::specs::BindItems::stamp_item, item_codec::specs::Spelling::version, item_codec::specs::Spelling::version_of))]
fn stamp_put(alloc: Global, now: Moment) -> Result<Put, Memory>
    ensures { IfOk result (λ put. put ≡ set_put stamp_item now) }
{
    let mut body = FieldWriter::new(alloc);
    body.number(1, VERSION)?;
    body.number(8, now.seconds())?;
    Ok(Put::Set(Item {
        kind: STAMP_KIND,
        key: Bytes::empty(alloc),
        body: body.into_bytes(),
    }))
}

/// The puts of a change with that of the stamp behind them; none where there are none.
#[tactic(auto, unfolding(crate::specs::Changes::batch_of, desk_model::specs::Items::with_stamp_put))]
pub(crate) fn batch_of(
    alloc: Global,
    mut puts: Listed<Put>,
    now: Moment,
) -> Result<Listed<Put>, Memory>
    ensures { IfOk result (λ batch. batch ≡ batch_of now puts) }
{
    if puts.len() > 0 {
        puts.push(stamp_put(alloc, now)?)?;
    }
    Ok(puts)
}

/// The stamp after a change with these puts: its moment, and where there are none the one that was.
#[tactic(auto, unfolding(crate::specs::Changes::stamp_after))]
pub(crate) fn stamp_after(puts: &Listed<Put>, stamp: Option<Moment>, now: Moment) -> Option<Moment>
    ensures { result ≡ stamp_after now stamp puts.now }
{
    match puts.len() {
        0 => stamp,
        _ => Some(now),
    }
}
