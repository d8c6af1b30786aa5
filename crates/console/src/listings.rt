//! Listings.
ghost use Rattle.std.specs.Prelude.{◌≡◌, IfOk};
ghost use Rattle.mud_world.specs.Kept.{faults_of};
ghost use Rattle.mud_world.specs.Causes.{Counts};
ghost use Rattle.mud_desk.specs.DeskState.{tables_of, session_of};
ghost use Rattle.mud_desk.specs.Stays.{StaysKept};
ghost use Rattle.desk_model.specs.Kept.{IsKept};
ghost use Rattle.console.specs.Listings as spec;
ghost use Rattle.console.specs.Replies.{reply, is_unavailable, IsOrFailed};
ghost use Rattle.console.specs.Requests.{by_listing};

use crate::body::BodyText;
use crate::due::due_text;
use crate::refusals::want_memory;
use crate::session::{later, raise};
use console_answers::Status;
use console_listings::{classes_body, files_body, locals_body, names_body, things_body};
use console_routes::Listing;
use mud_base::{Bytes, Memory, Moment};
use mud_desk::Desk;
use mud_world::Keeper;
use std::alloc::Global;

/// The rows of a desk at a moment.
#[tactic(auto, unfolding(crate::specs::Listings::listing_text))]
fn listing_text<K: Keeper>(
    alloc: Global,
    desk: &Desk<K>,
    listing: Listing,
    now: Moment,
) -> Result<Bytes, Memory>
    ensures { IfOk result (λ text. text ≡ spec.listing_text listing (tables_of desk.now.state) now) }
{
    match listing {
        Listing::Things => things_body(alloc, desk.things()),
        Listing::Files => files_body(alloc, desk.files()),
        Listing::Classes => classes_body(alloc, desk.classes()),
        Listing::Locals => locals_body(alloc, desk.locals()),
        Listing::Names => names_body(alloc, desk.names()),
        Listing::Due => due_text(alloc, desk.files(), now),
    }
}

/// Lists rows, which raises the moment of the session.
pub(crate) fn answer_listing<K: Keeper>(
    alloc: Global,
    desk: &mut Desk<K>,
    body: &mut BodyText,
    listing: Listing,
    given: Moment,
) -> Status
    requires kept { IsKept ⟦<K as Keeper>⟧ desk.old.keeper (tables_of desk.old.state) }
    ensures reply { IsOrFailed ⊥ (session_of desk.old.state) (by_listing (session_of desk.old.state) given listing)
        (reply result body.new) (session_of desk.new.state) }
    ensures stays { StaysKept ⟦<K as Keeper>⟧ desk.old desk.new }
    ensures cause { Counts (is_unavailable result) (faults_of ⟦<K as Keeper>⟧ desk.old.keeper) (faults_of ⟦<K as Keeper>⟧ desk.new.keeper) }
{
    let now = later(desk.moment(), given);
    match listing_text(alloc, desk, listing, now) {
        Ok(text) => {
            body.keep(text);
            raise(desk, given);
            Status::Done
        }
        Err(Memory) => want_memory(body),
    }
}
