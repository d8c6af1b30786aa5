//! Why something is refused.
ghost use Rattle.std.specs.Prelude.{◌≡◌, ◌++◌, OnOk, IfOk};
ghost use Rattle.console_listings.specs.Refusals as spec;
ghost use Rattle.desk_model.specs.declared.reply.Refusal.TheVariants.{Files};
ghost use Rattle.console_bodies.specs.declared.fault.BodyFault.TheVariants as body_fault;
ghost use Rattle.usage_tables.specs.declared.cache_fault.CacheFault.TheVariants.{File};

use console_answers::{Status, append_quoted};
use console_bodies::{BodyFault, Member};
use desk_model::Refusal;
use dhcp_lldp::HearFault;
use mud_base::{Bytes, Memory};
use mud_file::Broken;
use mud_url::UrlFault;
use std::alloc::Global;
use text_values::append_decimal;
use usage_tables::CacheFault;

/// Adds the member that says where a fault is, where it has an offset.
#[tactic(auto, unfolding(crate::specs::Refusals::offset_member))]
fn append_offset(body: &mut Bytes, offset: Option<usize>) -> Result<(), Memory>
    ensures { OnOk result (body.new ≡ body.old ++ spec.offset_member offset) }
{
    match offset {
        None => Ok(()),
        Some(offset) => {
            body.append(b"\"at\":")?;
            append_decimal(body, offset as u64)?;
            body.append(b",")
        }
    }
}

/// Adds the members that say which fault it is.
#[tactic(auto, unfolding(crate::specs::Refusals::refused_members))]
fn append_refused(body: &mut Bytes, number: u8, name: &str) -> Result<(), Memory>
    ensures { OnOk result (body.new ≡ body.old ++ spec.refused_members number name.now) }
{
    body.append(b"\"refused\":")?;
    append_decimal(body, u64::from(number))?;
    body.append(b",\"rule\":")?;
    append_quoted(body, name.as_bytes())
}

/// Adds the members of a fault of a URL.
#[tactic(auto, unfolding(crate::specs::Refusals::url_fault_text))]
fn append_url_fault(body: &mut Bytes, fault: UrlFault) -> Result<(), Memory>
    ensures { OnOk result (body.new ≡ body.old ++ spec.url_fault_text fault) }
{
    body.append(b"{")?;
    append_offset(body, fault.offset())?;
    append_refused(body, fault.number(), fault.name())?;
    body.append(b"}")
}

/// Adds the member of a URL's fault, where there is one.
#[tactic(auto, unfolding(crate::specs::Refusals::url_member))]
fn append_url_member(body: &mut Bytes, fault: Option<UrlFault>) -> Result<(), Memory>
    ensures { OnOk result (body.new ≡ body.old ++ spec.url_member fault) }
{
    match fault {
        None => Ok(()),
        Some(fault) => {
            body.append(b",\"url\":")?;
            append_url_fault(body, fault)
        }
    }
}

/// The body that says why a message is refused.
#[tactic(auto, unfolding(crate::specs::Refusals::body_fault_body))]
fn heard_fault_body(alloc: Global, fault: HearFault) -> Result<Bytes, Memory>
    ensures { IfOk result (λ body. body ≡ spec.body_fault_body (body_fault.Heard fault)) }
{
    let mut body = Bytes::new(alloc, b"{")?;
    append_offset(&mut body, fault.offset())?;
    append_refused(&mut body, fault.number(), fault.name())?;
    append_url_member(&mut body, fault.url())?;
    body.append(b"}")?;
    Ok(body)
}

/// The body that names a rule alone.
#[tactic(auto, unfolding(crate::specs::Refusals::body_fault_body))]
fn json_body(alloc: Global) -> Result<Bytes, Memory>
    ensures { IfOk result (λ body. body ≡ spec.body_fault_body body_fault.Json) }
{
    Bytes::new(alloc, b"{\"rule\":\"json\"}")
}

/// The body that names a member.
#[tactic(auto, unfolding(crate::specs::Refusals::body_fault_body))]
fn member_body(alloc: Global, member: Member) -> Result<Bytes, Memory>
    ensures { IfOk result (λ body. body ≡ spec.body_fault_body (body_fault.Member member)) }
{
    let mut body = Bytes::new(alloc, b"{\"member\":")?;
    append_quoted(&mut body, member.name().as_bytes())?;
    body.append(b",\"rule\":\"member\"}")?;
    Ok(body)
}

/// The body of the answer 400 to a request whose body is wrong.
#[tactic(auto, unfolding(crate::specs::Refusals::body_fault_body))]
pub fn body_fault_body(alloc: Global, fault: BodyFault) -> Result<Bytes, Memory>
    ensures { IfOk result (λ body. body ≡ spec.body_fault_body fault) }
{
    match fault {
        BodyFault::Json => json_body(alloc),
        BodyFault::Member(member) => member_body(alloc, member),
        BodyFault::Heard(fault) => heard_fault_body(alloc, fault),
    }
}

/// The body that names a book and its refusal.
#[tactic(auto, unfolding(crate::specs::Refusals::book_body))]
fn book_body(alloc: Global, book: &[u8], number: u8, name: &str) -> Result<Bytes, Memory>
    ensures { IfOk result (λ body. body ≡ spec.book_body book.now number name.now) }
{
    let mut body = Bytes::new(alloc, b"{\"book\":")?;
    append_quoted(&mut body, book)?;
    body.append(b",")?;
    append_refused(&mut body, number, name)?;
    body.append(b"}")?;
    Ok(body)
}

/// The body that names the rule that a usage file breaks, and where.
#[tactic(auto, unfolding(crate::specs::Refusals::refusal_body))]
fn broken_body(alloc: Global, broken: &Broken) -> Result<Bytes, Memory>
    ensures { IfOk result (λ body. body ≡ spec.refusal_body (Files (File broken.now))) }
{
    let mut body = Bytes::new(alloc, b"{\"path\":")?;
    append_quoted(&mut body, broken.path.octets())?;
    append_broken(&mut body, broken)?;
    Ok(body)
}

/// Adds which rule it is, and the fault of its URL.
#[tactic(auto, unfolding(crate::specs::Refusals::broken_end))]
fn append_broken(body: &mut Bytes, broken: &Broken) -> Result<(), Memory>
    ensures { OnOk result (body.new ≡ body.old ++ spec.broken_end broken.now) }
{
    body.append(b",")?;
    append_refused(body, broken.rule.number(), broken.rule.name())?;
    append_url_member(body, broken.url)?;
    body.append(b"}")
}

/// The body of the answer to a usage file that is refused.
#[tactic(auto, unfolding(crate::specs::Refusals::refusal_body))]
fn files_refusal_body(alloc: Global, fault: &CacheFault) -> Result<Bytes, Memory>
    ensures { IfOk result (λ body. body ≡ spec.refusal_body (Files fault.now)) }
{
    match fault {
        CacheFault::File(broken) => broken_body(alloc, broken),
        CacheFault::Memory
        | CacheFault::Older
        | CacheFault::CacheFull
        | CacheFault::NoCandidate
        | CacheFault::Digest
        | CacheFault::NoSignature
        | CacheFault::NotApproved
        | CacheFault::PolicyFull => book_body(alloc, b"files", fault.number(), fault.name()),
    }
}

/// The body of the answer to a command that is refused.
#[tactic(auto, unfolding(crate::specs::Refusals::refusal_body))]
pub fn refusal_body(alloc: Global, refusal: &Refusal) -> Result<Bytes, Memory>
    ensures { IfOk result (λ body. body ≡ spec.refusal_body refusal.now) }
{
    match refusal {
        Refusal::Things(fault) => book_body(alloc, b"things", fault.number(), fault.name()),
        Refusal::Files(fault) => files_refusal_body(alloc, fault),
        Refusal::Binds(fault) => book_body(alloc, b"binds", fault.number(), fault.name()),
    }
}

/// The status of the answer to a command that is refused: 422 where the octets are no usage file,
/// and else 409.
#[tactic(auto, unfolding(crate::specs::Refusals::refusal_status))]
pub fn refusal_status(refusal: &Refusal) -> Status
    ensures { result ≡ spec.refusal_status refusal.now }
{
    match refusal {
        Refusal::Files(CacheFault::File(_)) => Status::Unprocessable,
        _ => Status::Conflict,
    }
}
