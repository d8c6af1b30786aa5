//! Heads of answers.
ghost use Rattle.std.specs.Prelude.{◌≡◌, ◌++◌, codes, decimal, if◌then◌else◌, []};
ghost use Rattle.console_answers.specs.Kept.{kept};
ghost use Rattle.console_answers.specs.Heads as spec;
ghost use Rattle.console_answers.specs.Statuses.{number_of, phrase_of};

use crate::AnswerBuffer;
use crate::status::Status;
use crate::texts::put_decimal;
use console_routes::Route;

/// Adds the status line, as far as it fits.
#[tactic(auto, using(crate::proofs::KeptLemmas::kept_behind))]
fn put_status_line(head: &mut AnswerBuffer, status: Status)
    ensures { head.new ≡ kept (head.old ++ (codes "HTTP/1.1 " ++ decimal (number_of status) ++ codes " " ++ phrase_of status ++ spec.line_end)) }
{
    head.put(b"HTTP/1.1 ");
    put_decimal(head, u64::from(status.number()));
    head.put(b" ");
    head.put(status.phrase().as_bytes());
    head.put(b"\r\n");
}

/// The methods of a route, joined by a comma and a space.
#[tactic(auto, unfolding(crate::specs::Heads::methods_text, console_routes::specs::Actions::methods_of, console_routes::specs::Actions::action_of, console_routes::specs::Actions::text_of))]
fn methods_text(route: Route) -> &'static [u8]
    ensures { result.now ≡ spec.methods_text route }
{
    match route {
        Route::HearDhcp
        | Route::HearLldp
        | Route::Verdicts
        | Route::Revokes
        | Route::Packets
        | Route::Why => b"POST",
        Route::Due => b"GET",
        Route::Holds | Route::Leases => b"DELETE, POST",
        Route::Files | Route::Names => b"GET, POST",
        Route::Locals => b"GET, PUT",
        Route::Things | Route::Classes => b"DELETE, GET, POST",
    }
}

/// Adds the line of a route's methods, where there is one, as far as it fits.
#[tactic(auto, unfolding(crate::specs::Heads::allow_line), using(crate::proofs::KeptLemmas::kept_behind, crate::proofs::KeptLemmas::kept_none))]
fn put_allow_line(head: &mut AnswerBuffer, allow: Option<Route>)
    ensures { head.new ≡ kept (head.old ++ spec.allow_line allow) }
{
    match allow {
        None => {
            let _len = head.len();
        }
        Some(route) => {
            head.put(b"Allow: ");
            head.put(methods_text(route));
            head.put(b"\r\n");
        }
    }
}

/// Adds the line of the body's length, as far as it fits.
#[tactic(auto, using(crate::proofs::KeptLemmas::kept_behind))]
fn put_length_line(head: &mut AnswerBuffer, length: usize)
    ensures { head.new ≡ kept (head.old ++ (codes "Content-Length: " ++ decimal length ++ spec.line_end)) }
{
    head.put(b"Content-Length: ");
    put_decimal(head, length as u64);
    head.put(b"\r\n");
}

/// Adds the line that says that the connection ends, where it does, as far as it fits.
#[tactic(auto, using(crate::proofs::KeptLemmas::kept_behind, crate::proofs::KeptLemmas::kept_none))]
fn put_close_line(head: &mut AnswerBuffer, closes: bool)
    ensures { head.new ≡ kept (head.old ++ (if closes then codes "Connection: close" ++ spec.line_end else [])) }
{
    if closes {
        head.put(b"Connection: close\r\n");
    } else {
        let _len = head.len();
    }
}

/// Adds all lines, as far as they fit.
#[tactic(auto, unfolding(crate::specs::Heads::head_of), using(crate::proofs::KeptLemmas::kept_behind))]
fn put_head(
    head: &mut AnswerBuffer,
    status: Status,
    allow: Option<Route>,
    length: usize,
    closes: bool,
)
    ensures { head.new ≡ kept (head.old ++ spec.head_of status allow length closes) }
{
    put_status_line(head, status);
    head.put(b"Content-Type: application/json\r\n");
    put_allow_line(head, allow);
    put_length_line(head, length);
    put_close_line(head, closes);
    head.put(b"\r\n");
}

/// Writes the head of an answer, in place of what stood in the buffer: its status, for a route that
/// has not the method the methods that it has, the octets of the body, and whether the connection
/// ends behind the answer.
#[tactic(auto, using(crate::proofs::Lengths::head_kept))]
pub fn write_head(
    head: &mut AnswerBuffer,
    status: Status,
    allow: Option<Route>,
    length: usize,
    closes: bool,
)
    ensures { head.new ≡ spec.head_of status allow length closes }
{
    head.clear();
    put_head(head, status, allow, length, closes);
}

/// What of a body follows the head: none of it where the request was by HEAD.
#[tactic(auto, unfolding(crate::specs::Heads::shown))]
pub fn body_part(by_head: bool, body: &[u8]) -> &[u8]
    ensures { result.now ≡ spec.shown by_head body.now }
{
    if by_head { &[] } else { body }
}
