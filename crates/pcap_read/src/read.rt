//! Reading the header and the packets of a source.
ghost use Rattle.std.specs.Prelude.{◌≡◌, ℕ, ◌+◌, ◌-◌, ◌<◌, ◌≤◌, [], length, take, drop, IfOk, IfErr, OnOk, OnErr, IfSome, IfNone, OnSome, IsTrue, Ok, Err, None, false, true, is_some, List, ◌*◌};
ghost use Rattle.std.specs.Option.{ForSome};
ghost use Rattle.pcap_read.specs.declared.fault.CapFault.{CapFault};
ghost use Rattle.pcap_read.specs.declared.stage.Stage.TheVariants.{Reading, Failed};
ghost use Rattle.mud_world.specs.Causes.{Counts, StopsAtFailure};
ghost use Rattle.pcap_read.specs.Fault.{has_failed};
ghost use Rattle.pcap_read.specs.Packets.{packets_of, packets_from};
ghost use Rattle.pcap_read.specs.Parts.{packets_at, behind_head, behind_packet, coming, coming_next, is_decided, is_broken, is_ready_at, most_to_come};
ghost use Rattle.read_buffer.specs.Packets.{whole};
ghost use Rattle.read_buffer.specs.Reading.{Follows, behind};
ghost use Rattle.pcap_read.specs.Reading.{EndsIn, IsWithin, fails};

use crate::fault::CapFault;
use crate::head::{HEAD_LEN, Head, MOST_OCTETS, MOST_PACKETS, head_in};
use crate::header::{HEADER_LEN, header_of};
use crate::stage::{Current, Cursor, Next, Progress, Stage};
use mud_base::ByteOrder;
use mud_world::Door;
use read_buffer::{Buffer, fetch, wanted_behind};

/// Reads the header.
fn read_header<D: Door>(
    source: &mut D,
    buffer: &mut Buffer<MOST_OCTETS>,
) -> Result<ByteOrder, CapFault>
    ensures ok { D.tells → IfOk result (λ order.
        Follows (behind packets_of buffer.old.held) (behind (packets_from order 0 0 24) buffer.new.held) (D.view source.old).state (D.view source.new).state) }
    ensures err { D.tells → IfErr result (λ fault.
        EndsIn fault (behind packets_of buffer.old.held) (D.view source.old).state (D.view source.new).state) }
    ensures cause { Counts (has_failed result) (D.view source.old).reads (D.view source.new).reads }
    ensures stop { IsTrue (has_failed result) → StopsAtFailure (D.view source.new).failed (D.view source.old).reads (D.view source.new).reads }
    ensures turns { (D.view source.new).turns ≡ (D.view source.old).turns }
    ensures writes { (D.view source.new).writes ≡ (D.view source.old).writes }
{
    if !fetch(source, buffer, HEADER_LEN)? {
        return Err(CapFault::Cut(0));
    }
    let (header, _) = buffer.held().split_at(HEADER_LEN);
    let order = header_of(header)?;
    buffer.hand_out(HEADER_LEN);
    Ok(order)
}

/// Reads the head of the next packet. There is none where the octets end between two packets.
fn read_head<D: Door>(
    source: &mut D,
    buffer: &mut Buffer<MOST_OCTETS>,
    cursor: Cursor,
) -> Result<Option<Head>, CapFault>
    ensures ok { D.tells → IfOk result (λ head.
        Follows (behind (packets_at cursor) buffer.old.held) (behind (behind_head cursor head) buffer.new.held)
        (D.view source.old).state (D.view source.new).state) }
    ensures end { D.tells → IfOk result (λ head. head ≡ None → (buffer.new.held ≡ []) × ((D.view source.new).state.left ≡ [])) }
    ensures within { IfOk result (λ head. IfSome head (λ h. (h.len ≤ 262144) × (cursor.count < 100000000))) }
    ensures unread { IsTrue (is_decided cursor.order cursor.count buffer.old.held) → source.new ≡ source.old }
    ensures ready { IsTrue (is_decided cursor.order cursor.count buffer.old.held) →
        IfOk result (λ head. IfSome head (λ h. h.len ≤ length buffer.new.held)) }
    ensures err { D.tells → IfErr result (λ fault.
        EndsIn fault (behind (packets_at cursor) buffer.old.held) (D.view source.old).state (D.view source.new).state) }
    ensures cause { Counts (has_failed result) (D.view source.old).reads (D.view source.new).reads }
    ensures stop { IsTrue (has_failed result) → StopsAtFailure (D.view source.new).failed (D.view source.old).reads (D.view source.new).reads }
    ensures turns { (D.view source.new).turns ≡ (D.view source.old).turns }
    ensures writes { (D.view source.new).writes ≡ (D.view source.old).writes }
{
    let wanted = wanted_behind(cursor.count, MOST_PACKETS, HEAD_LEN);
    let is_enough = fetch(source, buffer, wanted)?;
    let held = buffer.held();
    if held.is_empty() {
        return Ok(None);
    }
    if cursor.count >= MOST_PACKETS {
        return Err(CapFault::Many);
    }
    if !is_enough {
        return Err(CapFault::Cut(cursor.offset));
    }
    let (head, _) = held.split_at(HEAD_LEN);
    let head = head_in(cursor.order, head);
    if head.len > MOST_OCTETS {
        return Err(CapFault::Long(cursor.offset));
    }
    buffer.hand_out(HEAD_LEN);
    Ok(Some(head))
}

/// Reads the next packet, and hands out its octets. There is none where the octets end between two
/// packets.
fn read_packet<D: Door>(
    source: &mut D,
    buffer: &mut Buffer<MOST_OCTETS>,
    cursor: Cursor,
) -> Result<Option<Head>, CapFault>
    ensures ok { D.tells → IfOk result (λ head.
        Follows (behind (packets_at cursor) buffer.old.held) (behind (behind_packet cursor head buffer.new.given) buffer.new.held)
        (D.view source.old).state (D.view source.new).state) }
    ensures end { D.tells → IfOk result (λ head. head ≡ None → (buffer.new.held ≡ []) × ((D.view source.new).state.left ≡ [])) }
    ensures within { IfOk result (λ head. IfSome head (λ h. (h.len ≤ 262144) × (cursor.count < 100000000))) }
    ensures unread { IsTrue (is_decided cursor.order cursor.count buffer.old.held) → source.new ≡ source.old }
    ensures err { D.tells → IfErr result (λ fault.
        EndsIn fault (behind (packets_at cursor) buffer.old.held) (D.view source.old).state (D.view source.new).state) }
    ensures cause { Counts (has_failed result) (D.view source.old).reads (D.view source.new).reads }
    ensures stop { IsTrue (has_failed result) → StopsAtFailure (D.view source.new).failed (D.view source.old).reads (D.view source.new).reads }
    ensures turns { (D.view source.new).turns ≡ (D.view source.old).turns }
    ensures writes { (D.view source.new).writes ≡ (D.view source.old).writes }
{
    let Some(head) = read_head(source, buffer, cursor)? else {
        return Ok(None);
    };
    if !fetch(source, buffer, head.len)? {
        return Err(CapFault::Cut(cursor.offset));
    }
    buffer.hand_out(head.len);
    Ok(Some(head))
}

/// Where a reader stands between two packets, once the header is read.
fn begin<D: Door>(
    source: &mut D,
    buffer: &mut Buffer<MOST_OCTETS>,
    progress: Progress,
) -> Result<Cursor, CapFault>
    requires { IsWithin progress }
    ensures ok { D.tells → IfOk result (λ cursor.
        Follows (behind (coming progress) buffer.old.held) (behind (packets_at cursor) buffer.new.held) (D.view source.old).state (D.view source.new).state) }
    ensures within { IfOk result (λ cursor. (cursor.count ≤ 100000000) × (cursor.offset ≤ 24 + 262160 * cursor.count)) }
    ensures most { IfOk result (λ cursor. 100000000 - cursor.count ≤ most_to_come progress) }
    ensures failed { (fault : CapFault) → progress.stage ≡ Failed fault → (result ≡ Err fault) × (source.new ≡ source.old) }
    ensures unread { IsTrue (is_ready_at progress.stage progress.count buffer.old.held) → source.new ≡ source.old }
    ensures ready { IsTrue (is_ready_at progress.stage progress.count buffer.old.held) →
        IfOk result (λ cursor. IsTrue (is_decided cursor.order cursor.count buffer.new.held)) }
    ensures err { D.tells → IfErr result (λ fault.
        EndsIn fault (behind (coming progress) buffer.old.held) (D.view source.old).state (D.view source.new).state) }
    ensures cause { Counts (fails progress.stage (has_failed result)) (D.view source.old).reads (D.view source.new).reads }
    ensures stop { IsTrue (fails progress.stage (has_failed result))
        → StopsAtFailure (D.view source.new).failed (D.view source.old).reads (D.view source.new).reads }
    ensures turns { (D.view source.new).turns ≡ (D.view source.old).turns }
    ensures writes { (D.view source.new).writes ≡ (D.view source.old).writes }
{
    match progress.stage {
        Stage::Start => {
            let order = read_header(source, buffer)?;
            Ok(Cursor {
                order,
                count: 0,
                offset: HEADER_LEN as u64,
            })
        }
        Stage::Reading(order) => Ok(Cursor {
            order,
            count: progress.count,
            offset: progress.offset,
        }),
        Stage::Failed(fault) => Err(fault),
    }
}

/// Where a reader stands behind a packet, if one was found.
fn next_of(cursor: Cursor, found: Option<Head>) -> Next
    requires few { cursor.count ≤ 100000000 }
    requires near { cursor.offset ≤ 24 + 262160 * cursor.count }
    requires found { ForSome found (λ head. (head.len ≤ 262144) × (cursor.count < 100000000)) }
    ensures coming { (given octets : List ℕ) → behind_packet cursor found given octets ≡ coming_next result given octets }
    ensures within { IsWithin result.progress }
    ensures stage { result.progress.stage ≡ Reading cursor.order }
    ensures found { is_some result.current ≡ is_some found }
    ensures fewer { is_some found ≡ true → most_to_come result.progress < 100000000 - cursor.count }
{
    let stage = Stage::Reading(cursor.order);
    let Some(head) = found else {
        return Next {
            progress: Progress {
                stage,
                count: cursor.count,
                offset: cursor.offset,
            },
            current: None,
        };
    };
    Next {
        progress: Progress {
            stage,
            count: cursor.count + 1,
            offset: cursor.offset + 16 + head.len as u64,
        },
        current: Some(Current {
            number: cursor.count + 1,
            at: cursor.offset,
            seconds: head.seconds,
        }),
    }
}

/// Goes on to the next packet, and hands out its octets.
pub(crate) fn step<D: Door>(
    source: &mut D,
    buffer: &mut Buffer<MOST_OCTETS>,
    progress: Progress,
) -> Result<Next, CapFault>
    requires { IsWithin progress }
    ensures ok { D.tells → IfOk result (λ next.
        Follows (behind (coming progress) buffer.old.held) (behind (coming_next next buffer.new.given) buffer.new.held)
        (D.view source.old).state (D.view source.new).state) }
    ensures end { D.tells → IfOk result (λ next. is_some next.current ≡ false →
        (buffer.new.held ≡ []) × ((D.view source.new).state.left ≡ []) × (coming next.progress [] ≡ whole)) }
    ensures within { IfOk result (λ next. IsWithin next.progress) }
    ensures going { IfOk result (λ next. is_broken next.progress.stage ≡ false) }
    ensures fewer { IfOk result (λ next. is_some next.current ≡ true → most_to_come next.progress < most_to_come progress) }
    ensures failed { (fault : CapFault) → progress.stage ≡ Failed fault → (result ≡ Err fault) × (source.new ≡ source.old) }
    ensures unread { IsTrue (is_ready_at progress.stage progress.count buffer.old.held) → source.new ≡ source.old }
    ensures err { D.tells → IfErr result (λ fault.
        EndsIn fault (behind (coming progress) buffer.old.held) (D.view source.old).state (D.view source.new).state) }
    ensures cause { Counts (fails progress.stage (has_failed result)) (D.view source.old).reads (D.view source.new).reads }
    ensures stop { IsTrue (fails progress.stage (has_failed result))
        → StopsAtFailure (D.view source.new).failed (D.view source.old).reads (D.view source.new).reads }
    ensures turns { (D.view source.new).turns ≡ (D.view source.old).turns }
    ensures writes { (D.view source.new).writes ≡ (D.view source.old).writes }
{
    let cursor = begin(source, buffer, progress)?;
    let found = read_packet(source, buffer, cursor)?;
    Ok(next_of(cursor, found))
}
