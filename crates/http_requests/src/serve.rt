//! Serving one connection.
ghost use Rattle.std.specs.Prelude.{◌≡◌, ◌≢◌, ◌+◌, ◌≤◌, ℕ, List, [], length, Option, Some, None, OnOk, OnErr, is_err};
ghost use Rattle.mud_world.specs.Door.{put_out};
ghost use Rattle.mud_world.specs.Whole.{WrotePart};
ghost use Rattle.http_requests.specs.Doors.{ReadsAndWrites, WritesAlone};
ghost use Rattle.http_requests.specs.Framing.{closes};
ghost use Rattle.http_requests.specs.Requests.{Request, Begins, closed, spent, stop_after};
ghost use Rattle.http_requests.specs.Shapes.{IsShape};
ghost use Rattle.http_requests.specs.Asked.{CarriedOut, asked, asked_by};
ghost use Rattle.http_requests.specs.Ends.{IsServed, is_read_failed, is_write_failed};
ghost use Rattle.http_requests.specs.Runs.{IsLeftBy};

use crate::end::ConnectionEnd;
use crate::service::Service;
use crate::{
    DoorFault, MOST_REQUESTS, MomentFrom, Next, RequestBuffer, RequestFault, RequestShape, Stop,
    next_request, parts_of, stop_of,
};
use mud_world::{Door, Failed, say};

/// Writes the answer that the service holds, or a first part of it and then fails.
fn say_answer<D: Door, S: Service>(door: &mut D, service: &S) -> Result<(), Failed>
    ensures ok { D.tells → OnOk result
        ((D.view door.new).state ≡ put_out (S.held service.now) (D.view door.old).state) }
    ensures part { D.tells → OnErr result
        (WrotePart (S.held service.now) (D.view door.old).state (D.view door.new).state) }
    ensures calls { WritesAlone (is_err result) (D.view door.old) (D.view door.new) }
{
    let (head, body) = service.answer();
    say(door, head)?;
    say(door, body)
}

/// Carries the request of this shape at the front of the octets out.
fn carry_out_first<S: Service>(service: &mut S, octets: &[u8], shape: &RequestShape, is_last: bool)
    requires ready { S.ready service.old }
    requires whole { shape.now.head_len + shape.now.body_len ≤ length octets.now }
    ensures ready { S.ready service.new }
    ensures answer { (from : MomentFrom) (request : Request) (behind : List ℕ)
        → Begins from octets.now request behind → IsShape from shape.now request.head
        → (s : S.State) → S.keeps service.old s
        → CarriedOut S.may (S.keeps service.new) s (asked_by from is_last request)
        (S.held service.new) }
{
    service.carry_out(&parts_of(shape, octets), is_last);
}

/// Carries the request of this shape at the front of the buffer out, where so many more are
/// answered with it, and writes the answer. It answers whether the connection ends with it.
fn answer_first<D: Door, S: Service>(
    buffer: &RequestBuffer,
    door: &mut D,
    service: &mut S,
    shape: &RequestShape,
    more: u32,
) -> Result<Option<Stop>, Failed>
    requires ready { S.ready service.old }
    requires whole { shape.now.head_len + shape.now.body_len ≤ length buffer.now }
    ensures ready { S.ready service.new }
    ensures answer { (from : MomentFrom) (request : Request) (behind : List ℕ)
        → Begins from buffer.now request behind → IsShape from shape.now request.head
        → (s : S.State) → S.keeps service.old s
        → CarriedOut S.may (S.keeps service.new) s (asked from more request) (S.held service.new) }
    ensures ok { D.tells → OnOk result
        ((D.view door.new).state ≡ put_out (S.held service.new) (D.view door.old).state) }
    ensures part { D.tells → OnErr result
        (WrotePart (S.held service.new) (D.view door.old).state (D.view door.new).state) }
    ensures goes_on { result ≡ Ok None → (request : Request)
        → shape.now.closes ≡ closes request.head → stop_after more request ≡ None }
    ensures closed { result ≡ Ok (Some Stop.Closed) → (request : Request)
        → shape.now.closes ≡ closes request.head → stop_after more request ≡ Some closed }
    ensures spent { result ≡ Ok (Some Stop.Spent) → (request : Request)
        → shape.now.closes ≡ closes request.head → stop_after more request ≡ Some spent }
    ensures calls { WritesAlone (is_err result) (D.view door.old) (D.view door.new) }
{
    let stop = stop_of(more, shape.closes);
    carry_out_first(service, buffer.octets(), shape, stop.is_some());
    say_answer(door, service)?;
    Ok(stop)
}

/// Writes the answer to a fault, or a first part of it and then fails.
fn answer_fault<D: Door, S: Service>(
    door: &mut D,
    service: &mut S,
    fault: RequestFault,
) -> Result<(), Failed>
    requires ready { S.ready service.old }
    ensures ready { S.ready service.new }
    ensures state { (s : S.State) → S.keeps service.old s → S.keeps service.new s }
    ensures ok { D.tells → OnOk result
        ((D.view door.new).state ≡ put_out (S.refusal fault) (D.view door.old).state) }
    ensures part { D.tells → OnErr result
        (WrotePart (S.refusal fault) (D.view door.old).state (D.view door.new).state) }
    ensures calls { WritesAlone (is_err result) (D.view door.old) (D.view door.new) }
{
    service.refuse(fault);
    say_answer(door, service)
}

/// Serves the connection at which the door stands: carries its requests out, one after the other,
/// and writes their answers, each before more is read. At most 1,000,000 are answered. A fault of
/// the framing is answered and ends it. What the buffer held before is forgotten.
pub fn serve_connection<D: Door, S: Service>(
    buffer: &mut RequestBuffer,
    door: &mut D,
    service: &mut S,
    from: MomentFrom,
) -> ConnectionEnd
    requires ready { S.ready service.old }
    ensures ready { S.ready service.new }

    // From whatever the service is said to keep, it keeps what some requests left. Where the door
    // tells, they are those of the connection, and what was written are their answers.
    ensures left { (s : S.State) → S.keeps service.old s → IsLeftBy S.may (S.keeps service.new) s }
    ensures served { D.tells → (s : S.State) → S.keeps service.old s
        → IsServed S.may S.refusal from (S.keeps service.new) result s
        (D.view door.old) (D.view door.new) }
    ensures calls { ReadsAndWrites (is_read_failed result) (is_write_failed result) (D.view door.old) (D.view door.new) }
{
    buffer.clear();
    let mut more = MOST_REQUESTS;
    'requests: loop {
        let shape = match next_request(buffer, door, from) {
            Ok(Next::Whole(shape)) => shape,
            Ok(Next::Ended) => return ConnectionEnd::Ended,
            Ok(Next::Broken(fault)) => {
                return match answer_fault(door, service, fault) {
                    Ok(()) => ConnectionEnd::Broken,
                    Err(Failed) => ConnectionEnd::WriteFailed,
                };
            }
            Err(DoorFault::Read) => return ConnectionEnd::ReadFailed,
            Err(DoorFault::Write) => return ConnectionEnd::WriteFailed,
        };
        match answer_first(buffer, door, service, &shape, more) {
            Ok(None) => {}
            Ok(Some(Stop::Closed)) => return ConnectionEnd::Closed,
            Ok(Some(Stop::Spent)) => return ConnectionEnd::Spent,
            Err(Failed) => return ConnectionEnd::WriteFailed,
        }
        buffer.consume(shape.len());
        more -= 1;
    }
}
