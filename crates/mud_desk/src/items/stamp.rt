//! Reading the stamp, the moment of the last change, from its item.
ghost use Rattle.std.specs.Prelude.{◌≡◌};
ghost use Rattle.table_model.specs.BindItems as spec;

use item_codec::FieldReader;
use item_codec::kinds::STAMP_KIND;
use mud_base::Moment;
use mud_world::Item;

/// The seconds in the body of the stamp's item, or None where the body isn't of its form.
#[tactic(auto, unfolding(table_model::specs::BindItems::moment_of_body, item_codec::specs::Records::version_in, item_codec::specs::Records::number_in, item_codec::specs::Records::end_in))]
fn moment_of_body(body: &[u8]) -> Option<u64>
    ensures { result ≡ spec.moment_of_body body.now }
{
    let mut reader = FieldReader::new(body);
    if reader.version().is_err() {
        return None;
    }
    let Ok(seconds) = reader.number(8) else {
        return None;
    };
    if reader.finish().is_err() {
        return None;
    }
    Some(seconds)
}

/// The stamp of an item, or None where the item is none of a stamp.
#[tactic(auto, unfolding(table_model::specs::BindItems::stamp_in))]
pub(crate) fn stamp_in(item: &Item) -> Option<Moment>
    ensures { result ≡ spec.stamp_in item.now }
{
    if item.kind != STAMP_KIND || item.key.len() != 0 {
        return None;
    }
    let seconds = moment_of_body(item.body.octets())?;
    Moment::new(seconds)
}
