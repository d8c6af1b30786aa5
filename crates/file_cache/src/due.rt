//! Which files are to be fetched again.
ghost use Rattle.std.specs.Prelude.{◌≡◌, option_copied};
ghost use Rattle.usage_tables.specs.Due as spec;

use mud_base::Moment;
use usage_tables::{CachedFile, Held};

/// The seconds of an hour.
const HOUR: u64 = 3600;

/// Of the held files of a URL the one that was fetched later, and on a tie the candidate.
#[tactic(auto, unfolding(usage_tables::specs::Due::latest))]
fn latest(row: &CachedFile) -> Option<&Held>
    ensures { option_copied result ≡ spec.latest row.now.approved row.now.candidate }
{
    match (&row.approved, &row.candidate) {
        (None, None) => None,
        (None, Some(candidate)) => Some(candidate),
        (Some((approved, _)), None) => Some(approved),
        (Some((approved, _)), Some(candidate)) => {
            if candidate.fetched().seconds() < approved.fetched().seconds() {
                Some(approved)
            } else {
                Some(candidate)
            }
        }
    }
}

/// Whether a file isn't fresh any more: so many hours have passed since it was fetched as it says
/// itself (RFC 8520, 3.5).
#[tactic(auto, unfolding(usage_tables::specs::Due::is_expired))]
fn is_expired(held: &Held, now: Moment) -> bool
    ensures { result ≡ spec.is_expired now held.now }
{
    held.fetched().seconds() + HOUR * held.file().hours as u64 <= now.seconds()
}

/// Whether a file of the URL is to be fetched again: of its held files the one that was fetched
/// later, the candidate on a tie, was fetched at least as many hours ago as it says itself
/// (RFC 8520, 3.5).
#[tactic(auto, unfolding(usage_tables::specs::Due::is_due))]
pub fn is_due(row: &CachedFile, now: Moment) -> bool
    ensures { result ≡ spec.is_due now row.now }
{
    match latest(row) {
        Some(held) => is_expired(held, now),
        None => false,
    }
}
