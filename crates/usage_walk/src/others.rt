//! Members that may not stand in an object: those that have no row in its table.
ghost use Rattle.std.specs.Prelude.{◌≡◌, option_map};
ghost use Rattle.serde_json.specs.View.{view};
ghost use Rattle.mud_base.specs.Readings.{Gives};
ghost use Rattle.usage_walk.specs.Others as spec;

use crate::fault::{FileFault, Rule};
use crate::path::{refused, under_name};
use crate::row::Row;
use serde_json::Value;
use std::alloc::Global;

/// Whether a row of the table has a member of this name.
#[tactic(auto, unfolding(crate::specs::Others::is_among))]
fn is_among<H>(rows: &[Row<H>], name: &str) -> bool
    ensures { result ≡ spec.is_among rows.now name.now }
{
    rows.iter().any(|row| row.member.name() == name)
}

/// The name of the first member of an object that has no row in the table, in the order of the
/// names by octets.
fn first_unknown<'a, H>(object: &'a Value, rows: &[Row<H>]) -> Option<&'a str>
    ensures { option_map (λ t. t.now) result ≡ spec.first_unknown rows.now (view object.now) }
{
    let map = object.as_object()?;
    'members: for (name, _) in map {
        if !is_among(rows, name.as_str()) {
            return Some(name.as_str());
        }
    }
    None
}

/// Refuses the object at this path where a member stands in it that has no row in the table.
#[tactic(auto, unfolding(crate::specs::Others::all_known), using(mud_base::proofs::Readings::answer_passed, mud_base::proofs::Readings::answer_refused))]
pub fn all_known<H>(
    alloc: Global,
    object: &Value,
    path: &[u8],
    rows: &[Row<H>],
) -> Result<(), FileFault>
    ensures { Gives (λ _. tt) result (spec.all_known path.now rows.now (view object.now)) }
{
    match first_unknown(object, rows) {
        None => Ok(()),
        Some(name) => {
            let path = under_name(alloc, path, name.as_bytes())?;
            Err(refused(Rule::UnknownMatch, path))
        }
    }
}
