//! The next request of a connection.
ghost use Rattle.std.specs.Prelude.{◌≡◌, ◌≢◌, ℕ, ◌+◌, ◌<◌, ◌≤◌, List, [], ◌++◌, length, false, nat_le, if◌then◌else◌, IfOk, OnErr, is_err, codes, ◌∷◌};
ghost use Rattle.httparse.specs.Grammar.{RequestHead};
ghost use Rattle.http_requests.specs.declared.fault.RequestFault.{RequestFault};
ghost use Rattle.http_requests.specs.declared.fault.MomentFrom.{MomentFrom};
ghost use Rattle.http_requests.specs.declared.shape.RequestShape.{RequestShape};
ghost use Rattle.http_requests.specs.Doors.{ReadsAlone, ReadsAndWrites};
ghost use Rattle.http_requests.specs.Head.{IsHead};
ghost use Rattle.http_requests.specs.Received.{Grown, Received};
ghost use Rattle.http_requests.specs.Requests.{Request, Begins, IsFault};
ghost use Rattle.http_requests.specs.Shapes.{HasHead, MayGetHead};
ghost use Rattle.http_requests.specs.Steps.{CameWhole, CameEnd, CameFault, HoldsWhole, ReadFailed, LeaveFailed};
ghost use Rattle.http_requests.specs.Failing.{is_read_failed, is_write_failed};

use crate::buffer::RequestBuffer;
use crate::fault::{FramingFault, MomentFrom, NO_HEAD, RequestFault};
use crate::seek::{HeadStep, look};
use crate::shape::RequestShape;
use mud_world::{Door, Failed, say};

/// The line that gives leave to send a body (RFC 9110, 15.2.1), and the empty line behind it.
const CONTINUE: &[u8; 25] = b"HTTP/1.1 100 Continue\r\n\r\n";

/// What came of the search for a head.
enum HeadNext {
    Found(RequestShape),
    Ended,
    Broken(RequestFault),
}

/// How the connection ends where no more octets come.
fn at_end(octets: &[u8]) -> HeadNext
    requires { MayGetHead octets.now }
    ensures ended { result ≡ HeadNext.Ended → octets.now ≡ [] }
    ensures broken { (from : MomentFrom) (fault : RequestFault) → result ≡ HeadNext.Broken fault
        → IsFault from octets.now fault [] }
    ensures settled { (shape : RequestShape) → result ≢ HeadNext.Found shape }
{
    if octets.is_empty() {
        HeadNext::Ended
    } else {
        HeadNext::Broken(NO_HEAD)
    }
}

/// Reads of the door until a head is held, or none can come.
fn next_head<D: Door>(
    buffer: &mut RequestBuffer,
    door: &mut D,
    from: MomentFrom,
) -> Result<HeadNext, Failed>
    ensures found { (shape : RequestShape) → result ≡ Ok (HeadNext.Found shape) → HasHead from buffer.new shape }
    ensures ended { result ≡ Ok HeadNext.Ended → buffer.new ≡ [] }
    ensures end { D.tells → result ≡ Ok HeadNext.Ended → (D.view door.new).state.left ≡ [] }
    ensures broken { D.tells → (fault : RequestFault) → result ≡ Ok (HeadNext.Broken fault)
        → IsFault from (buffer.new ++ (D.view door.new).state.left) fault [] }
    ensures failed { OnErr result (MayGetHead buffer.new) }
    ensures received { D.tells → Received buffer.old buffer.new (D.view door.old).state (D.view door.new).state }
    ensures untouched { (head : RequestHead) (rest : List ℕ) → IsHead buffer.old head rest → buffer.new ≡ buffer.old }
    ensures calls { ReadsAlone (is_err result) (D.view door.old) (D.view door.new) }
{
    'more: loop {
        match look(buffer.octets(), from) {
            HeadStep::Found(shape) => return Ok(HeadNext::Found(shape)),
            HeadStep::Broken(fault) => return Ok(HeadNext::Broken(fault)),
            HeadStep::Wait => {
                if buffer.fill(door)? == 0 {
                    return Ok(at_end(buffer.octets()));
                }
            }
        }
    }
}

/// The leave to send a body of this shape: none where the client doesn't wait for it.
#[tactic(auto)]
fn leave_for(shape: &RequestShape) -> &'static [u8]
    ensures { result.now ≡ (if shape.now.awaits_leave then (codes "HTTP/1.1 100 Continue" ++ 13 ∷ 10 ∷ 13 ∷ 10 ∷ []) else []) }
{
    if shape.awaits_leave { CONTINUE } else { &[] }
}

/// Reads of the door until so many octets are held, or the connection is at its end. It answers
/// whether so many are held. Where they were before, nothing is read.
fn next_body<D: Door>(buffer: &mut RequestBuffer, door: &mut D, len: usize) -> Result<bool, Failed>
    requires { len ≤ 532480 }
    ensures enough { IfOk result (λ enough. enough ≡ nat_le len (length buffer.new)) }
    ensures end { D.tells → IfOk result (λ enough. enough ≡ false → (D.view door.new).state.left ≡ []) }
    ensures short { OnErr result (length buffer.new < len) }
    ensures grown { Grown buffer.old buffer.new }
    ensures received { D.tells → Received buffer.old buffer.new (D.view door.old).state (D.view door.new).state }
    ensures untouched { len ≤ length buffer.old → buffer.new ≡ buffer.old }
    ensures calls { ReadsAlone (is_err result) (D.view door.old) (D.view door.new) }
{
    'more: while buffer.octets().len() < len {
        if buffer.fill(door)? == 0 {
            return Ok(false);
        }
    }
    Ok(true)
}

/// What comes next at a connection.
#[derive(Clone, Copy)]
pub enum Next {
    /// A whole request of this shape is held.
    Whole(RequestShape),
    /// The connection ended between two requests.
    Ended,
    /// It ends with this fault.
    Broken(RequestFault),
}

/// Which call of the door failed.
#[derive(Clone, Copy)]
pub enum DoorFault {
    /// A read. The count of failed reads rose.
    Read,
    /// A write. The count of failed writes rose.
    Write,
}

/// Reads of the door until the body of a request of this shape is held.
fn take_body<D: Door>(
    buffer: &mut RequestBuffer,
    door: &mut D,
    shape: RequestShape,
) -> Result<Next, DoorFault>
    ensures whole { (s : RequestShape) → result ≡ Ok (Next.Whole s)
        → (s ≡ shape) × (shape.head_len + shape.body_len ≤ length buffer.new) }
    ensures unended { result ≢ Ok Next.Ended }
    ensures cut { (fault : RequestFault) → result ≡ Ok (Next.Broken fault)
        → (fault ≡ record { framing = FramingFault.Cut; is_head = shape.is_head })
        × (length buffer.new < shape.head_len + shape.body_len) }
    ensures end { D.tells → (fault : RequestFault) → result ≡ Ok (Next.Broken fault) → (D.view door.new).state.left ≡ [] }
    ensures short { result ≡ Err DoorFault.Read → length buffer.new < shape.head_len + shape.body_len }
    ensures read { OnErr result (result ≡ Err DoorFault.Read) }
    ensures grown { Grown buffer.old buffer.new }
    ensures received { D.tells → Received buffer.old buffer.new (D.view door.old).state (D.view door.new).state }
    ensures untouched { shape.head_len + shape.body_len ≤ length buffer.old → buffer.new ≡ buffer.old }
    ensures calls { ReadsAlone (is_err result) (D.view door.old) (D.view door.new) }
{
    match next_body(buffer, door, shape.len()) {
        Ok(true) => Ok(Next::Whole(shape)),
        Ok(false) => Ok(Next::Broken(RequestFault {
            framing: FramingFault::Cut,
            is_head: shape.is_head,
        })),
        Err(_failed) => Err(DoorFault::Read),
    }
}

/// Gives leave for the body of the request of this shape, where its client waits for that, and
/// reads of the door until the body is held.
fn finish<D: Door>(
    buffer: &mut RequestBuffer,
    door: &mut D,
    shape: RequestShape,
) -> Result<Next, DoorFault>
    ensures within { (s : RequestShape) → result ≡ Ok (Next.Whole s) → s.head_len + s.body_len ≤ length buffer.new }
    ensures held { (from : MomentFrom) (s : RequestShape) → HasHead from buffer.old shape
        → result ≡ Ok (Next.Whole s) → HoldsWhole from s buffer.new }
    ensures whole { D.tells → (from : MomentFrom) (s : RequestShape) → HasHead from buffer.old shape
        → result ≡ Ok (Next.Whole s) → CameWhole from s buffer.old buffer.new (D.view door.old).state (D.view door.new).state }
    ensures unended { result ≢ Ok Next.Ended }
    ensures broken { D.tells → (from : MomentFrom) (fault : RequestFault) → HasHead from buffer.old shape
        → result ≡ Ok (Next.Broken fault) → CameFault from fault buffer.old buffer.new (D.view door.old).state (D.view door.new).state }
    ensures read { D.tells → (from : MomentFrom) → HasHead from buffer.old shape
        → result ≡ Err DoorFault.Read → ReadFailed from buffer.old buffer.new (D.view door.old).state (D.view door.new).state }
    ensures write { D.tells → (from : MomentFrom) → HasHead from buffer.old shape
        → result ≡ Err DoorFault.Write → LeaveFailed from buffer.old buffer.new (D.view door.old).state (D.view door.new).state }
    ensures untouched { shape.head_len + shape.body_len ≤ length buffer.old → buffer.new ≡ buffer.old }
    ensures calls { ReadsAndWrites (is_read_failed result) (is_write_failed result) (D.view door.old) (D.view door.new) }
{
    match say(door, leave_for(&shape)) {
        Ok(()) => take_body(buffer, door, shape),
        Err(_failed) => Err(DoorFault::Write),
    }
}

/// Reads of the door until the next request is held whole, or the connection ends. Reads only
/// where no whole request is held. Between its head and its body the client is given leave to send
/// the body, where it waits for that.
pub fn next_request<D: Door>(
    buffer: &mut RequestBuffer,
    door: &mut D,
    from: MomentFrom,
) -> Result<Next, DoorFault>
    ensures within { (shape : RequestShape) → result ≡ Ok (Next.Whole shape)
        → shape.head_len + shape.body_len ≤ length buffer.new }
    ensures held { (shape : RequestShape) → result ≡ Ok (Next.Whole shape) → HoldsWhole from shape buffer.new }
    ensures whole { D.tells → (s : RequestShape) → result ≡ Ok (Next.Whole s)
        → CameWhole from s buffer.old buffer.new (D.view door.old).state (D.view door.new).state }
    ensures ended { D.tells → result ≡ Ok Next.Ended
        → CameEnd buffer.old buffer.new (D.view door.old).state (D.view door.new).state }
    ensures broken { D.tells → (fault : RequestFault) → result ≡ Ok (Next.Broken fault)
        → CameFault from fault buffer.old buffer.new (D.view door.old).state (D.view door.new).state }
    ensures read { D.tells → result ≡ Err DoorFault.Read
        → ReadFailed from buffer.old buffer.new (D.view door.old).state (D.view door.new).state }
    ensures write { D.tells → result ≡ Err DoorFault.Write
        → LeaveFailed from buffer.old buffer.new (D.view door.old).state (D.view door.new).state }

    // Where a whole request is held, nothing is read.
    ensures untouched { (request : Request) (behind : List ℕ) → Begins from buffer.old request behind
        → buffer.new ≡ buffer.old }
    ensures calls { ReadsAndWrites (is_read_failed result) (is_write_failed result) (D.view door.old) (D.view door.new) }
{
    match next_head(buffer, door, from) {
        Ok(HeadNext::Found(shape)) => finish(buffer, door, shape),
        Ok(HeadNext::Ended) => Ok(Next::Ended),
        Ok(HeadNext::Broken(fault)) => Ok(Next::Broken(fault)),
        Err(_failed) => Err(DoorFault::Read),
    }
}
