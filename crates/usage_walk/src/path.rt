//! Paths: JSON pointers (RFC 6901), and refusals that name them.
ghost use Rattle.std.specs.Prelude.{◌≡◌, IfOk, ◌==◌, ◌∷◌, if◌then◌else◌, []};
ghost use Rattle.mud_base.specs.Readings.{Gives, Refuses, refused_where};
ghost use Rattle.mud_base.specs.declared.refusal.Refusal.TheVariants as told;
ghost use Rattle.usage_walk.specs.Reading.{at_index, fault_at, under, under_name};
ghost use Rattle.usage_walk.specs.Reading as spec;

use crate::fault::{Broken, FileFault, Rule};
use crate::member::Member;
use itoa::Buffer;
use mud_base::{Bytes, Memory};
use std::alloc::Global;

/// The path of a member of the object at this path.
#[tactic(auto, unfolding(crate::specs::Reading::under))]
pub fn under(alloc: Global, path: &[u8], member: Member) -> Result<Bytes, Memory>
    ensures { IfOk result (λ found. found ≡ spec.under path.now member) }
{
    let mut text = Bytes::new(alloc, path)?;
    text.push(b'/')?;
    text.append(member.name().as_bytes())?;
    Ok(text)
}

/// The path of an element of the list at this path, by its index from 0.
#[tactic(auto, unfolding(crate::specs::Reading::at_index))]
pub fn at_index(alloc: Global, path: &[u8], index: usize) -> Result<Bytes, Memory>
    ensures { IfOk result (λ found. found ≡ spec.at_index path.now index) }
{
    let mut text = Bytes::new(alloc, path)?;
    text.push(b'/')?;
    text.append(Buffer::new().format(index).as_bytes())?;
    Ok(text)
}

/// How an octet of a name stands in a path (RFC 6901, 3).
fn escape(octet: &u8) -> &[u8]
    ensures { result.now ≡ if octet.now == 126 then (126 ∷ 48 ∷ []) else (if octet.now == 47 then (126 ∷ 49 ∷ []) else (octet.now ∷ [])) }
{
    match octet {
        b'~' => b"~0",
        b'/' => b"~1",
        other => std::slice::from_ref(other),
    }
}

/// The path of a member with any name of the object at this path: `~` is written as `~0`, and `/`
/// as `~1` (RFC 6901, 3).
#[tactic(auto, unfolding(crate::specs::Reading::under_name))]
pub fn under_name(alloc: Global, path: &[u8], name: &[u8]) -> Result<Bytes, Memory>
    ensures { IfOk result (λ found. found ≡ spec.under_name path.now name.now) }
{
    let mut text = Bytes::new(alloc, path)?;
    text.push(b'/')?;
    'name: for octet in name {
        text.append(escape(octet))?;
    }
    Ok(text)
}

/// The refusal that names this path.
#[tactic(auto, unfolding(crate::specs::Reading::fault_at))]
pub fn refused(rule: Rule, path: Bytes) -> FileFault
    ensures { result ≡ told.Broken (fault_at rule path) }
{
    FileFault::Broken(Broken {
        rule,
        path,
        url: None,
    })
}

/// The refusal that names a member of the object at this path.
pub fn refusal(alloc: Global, rule: Rule, path: &[u8], member: Member) -> FileFault
    ensures { Refuses result (fault_at rule (spec.under path.now member)) }
{
    match under(alloc, path, member) {
        Ok(path) => refused(rule, path),
        Err(Memory) => FileFault::Memory,
    }
}

/// The refusal that names this path itself.
pub(crate) fn refusal_here(alloc: Global, rule: Rule, path: &[u8]) -> FileFault
    ensures { Refuses result (fault_at rule path.now) }
{
    match Bytes::new(alloc, path) {
        Ok(path) => refused(rule, path),
        Err(Memory) => FileFault::Memory,
    }
}

/// Refuses where a rule of a member of the object at this path is broken.
#[tactic(auto, using(mud_base::proofs::Readings::answer_passed, mud_base::proofs::Readings::answer_refused))]
pub fn refuse_where(
    alloc: Global,
    breaks: bool,
    rule: Rule,
    path: &[u8],
    member: Member,
) -> Result<(), FileFault>
    ensures { Gives (λ _. tt) result (refused_where breaks (fault_at rule (spec.under path.now member))) }
{
    if breaks {
        return Err(refusal(alloc, rule, path, member));
    }
    Ok(())
}

/// Refuses where a rule of what stands at this path is broken.
#[tactic(auto, using(mud_base::proofs::Readings::answer_passed, mud_base::proofs::Readings::answer_refused))]
pub fn refuse_here_where(
    alloc: Global,
    breaks: bool,
    rule: Rule,
    path: &[u8],
) -> Result<(), FileFault>
    ensures { Gives (λ _. tt) result (refused_where breaks (fault_at rule path.now)) }
{
    if breaks {
        return Err(refusal_here(alloc, rule, path));
    }
    Ok(())
}
