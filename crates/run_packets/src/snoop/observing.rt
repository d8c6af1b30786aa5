//! The addresses of a DNS message, each observed under the name that was asked for.
ghost use Rattle.std.specs.Prelude.{◌≡◌, ◌≢◌, ◌||◌, [], ◌∷◌, Ok, Some, IfOk, OnErr};
ghost use Rattle.std.specs.List.{All};
ghost use Rattle.mud_world.specs.Kept.{faults_of};
ghost use Rattle.mud_world.specs.Causes.{Counts};
ghost use Rattle.desk_model.specs.Sessions.{AllowedReply, is_of_keeper};
ghost use Rattle.dns_snoop.specs.Messages.{answers_of};
ghost use Rattle.dns_snoop.specs.Observed.{IsObservable};
ghost use Rattle.desk_model.specs.Kept.{IsKept};
ghost use Rattle.mud_desk.specs.DeskState.{session_of, tables_of};
ghost use Rattle.mud_desk.specs.Stays.{StaysKept};
ghost use Rattle.run_packets.specs.Snoop.Learnt.{Learns, LearnsFirst, names_of};

use crate::snoop::line::{append_dns_fault, append_name};
use desk_model::{Command, Reply};
use dns_snoop::{Answers, DnsFault, read_answers};
use mud_base::{Addr, Bytes, Memory, Moment};
use mud_desk::Desk;
use mud_world::Keeper;
use std::alloc::Global;

/// The reply, unless it is that memory was wanted.
fn unless_memory(reply: Reply) -> Result<Reply, Memory>
    ensures ok { IfOk result (λ said. (said ≡ reply) × (said ≢ Reply.Memory)) }
    ensures err { OnErr result (reply ≡ Reply.Memory) }
{
    match reply {
        Reply::Memory => Err(Memory),
        reply => Ok(reply),
    }
}

/// Whether the reply is that the keeper failed.
fn is_of_keeper(reply: &Reply) -> bool
    ensures { result ≡ is_of_keeper reply.now }
{
    matches!(reply, Reply::Keeper)
}

/// Whether one of the two is so.
pub(crate) fn either(first: bool, second: bool) -> bool
    ensures { result ≡ (first || second) }
{
    first || second
}

/// Observes an address under a name, for so many seconds, at this moment.
#[tactic(auto, using(crate::proofs::SnoopLaws::Asked::memory_leaves))]
fn observe<K: Keeper>(
    alloc: Global,
    desk: &mut Desk<K>,
    name: &[u8],
    row: (Addr, u32),
    now: Moment,
) -> Result<Reply, Memory>
    requires kept { IsKept ⟦<K as Keeper>⟧ desk.old.keeper (tables_of desk.old.state) }
    requires asked { IsObservable name.now row }
    ensures stays { StaysKept ⟦<K as Keeper>⟧ desk.old desk.new }
    ensures answer { IfOk result (λ reply.
        AllowedReply (session_of desk.old.state) now (Command.Observe name.now row.0 row.1) reply (session_of desk.new.state)) }
    ensures told { IfOk result (λ reply. reply ≢ Reply.Memory) }
    ensures still { OnErr result (session_of desk.new.state ≡ session_of desk.old.state) }
    ensures cause { IfOk result (λ reply. Counts (is_of_keeper reply) (faults_of ⟦<K as Keeper>⟧ desk.old.keeper) (faults_of ⟦<K as Keeper>⟧ desk.new.keeper)) }
    ensures steady { OnErr result (faults_of ⟦<K as Keeper>⟧ desk.new.keeper ≡ faults_of ⟦<K as Keeper>⟧ desk.old.keeper) }
{
    let name = Bytes::new(alloc, name)?;
    unless_memory(desk.execute(Command::Observe(name, row.0, row.1), now))
}

/// Observes an address under a name, at this moment, and adds the line of it. The answer is whether
/// the keeper failed.
fn learn_row<K: Keeper>(
    alloc: Global,
    desk: &mut Desk<K>,
    lines: &mut Bytes,
    name: &[u8],
    row: (Addr, u32),
    now: Moment,
) -> Result<bool, Memory>
    requires kept { IsKept ⟦<K as Keeper>⟧ desk.old.keeper (tables_of desk.old.state) }
    requires asked { IsObservable name.now row }
    ensures stays { StaysKept ⟦<K as Keeper>⟧ desk.old desk.new }
    ensures all { IfOk result (λ failed. Learns now (names_of name.now (row ∷ [])) (session_of desk.old.state) (session_of desk.new.state)
        lines.old lines.new (faults_of ⟦<K as Keeper>⟧ desk.old.keeper) (faults_of ⟦<K as Keeper>⟧ desk.new.keeper) failed) }
    ensures part { OnErr result (LearnsFirst now (names_of name.now (row ∷ [])) (session_of desk.old.state) (session_of desk.new.state)
        (faults_of ⟦<K as Keeper>⟧ desk.old.keeper) (faults_of ⟦<K as Keeper>⟧ desk.new.keeper)) }
    ensures keeper { IfOk result (λ failed. Counts failed (faults_of ⟦<K as Keeper>⟧ desk.old.keeper) (faults_of ⟦<K as Keeper>⟧ desk.new.keeper)) }
{
    let reply = observe(alloc, desk, name, row, now)?;
    append_name(alloc, lines, name, row, &reply)?;
    Ok(is_of_keeper(&reply))
}

/// Observes the addresses of a name, one after the other, at this moment, and adds the line of each.
/// The answer is whether the keeper failed at one of them; those behind it are observed.
fn learn_rows<K: Keeper>(
    alloc: Global,
    desk: &mut Desk<K>,
    lines: &mut Bytes,
    answers: &Answers,
    now: Moment,
) -> Result<bool, Memory>
    requires kept { IsKept ⟦<K as Keeper>⟧ desk.old.keeper (tables_of desk.old.state) }
    requires asked { All (IsObservable answers.now.name) answers.now.rows }
    ensures stays { StaysKept ⟦<K as Keeper>⟧ desk.old desk.new }
    ensures all { IfOk result (λ failed. Learns now (Some (Ok answers.now)) (session_of desk.old.state) (session_of desk.new.state)
        lines.old lines.new (faults_of ⟦<K as Keeper>⟧ desk.old.keeper) (faults_of ⟦<K as Keeper>⟧ desk.new.keeper) failed) }
    ensures part { OnErr result (LearnsFirst now (Some (Ok answers.now)) (session_of desk.old.state) (session_of desk.new.state)
        (faults_of ⟦<K as Keeper>⟧ desk.old.keeper) (faults_of ⟦<K as Keeper>⟧ desk.new.keeper)) }
    ensures keeper { IfOk result (λ failed. Counts failed (faults_of ⟦<K as Keeper>⟧ desk.old.keeper) (faults_of ⟦<K as Keeper>⟧ desk.new.keeper)) }
{
    let mut failed = false;
    for row in answers.rows.as_slice() {
        let one = learn_row(alloc, desk, lines, answers.name.octets(), *row, now)?;
        failed = either(failed, one);
    }
    Ok(failed)
}

/// Reads a DNS message, and observes the addresses that it answers, at this moment. Their lines are
/// added, or that of the message's fault.
pub(crate) fn learn<K: Keeper>(
    alloc: Global,
    desk: &mut Desk<K>,
    lines: &mut Bytes,
    message: &[u8],
    now: Moment,
) -> Result<bool, Memory>
    requires kept { IsKept ⟦<K as Keeper>⟧ desk.old.keeper (tables_of desk.old.state) }
    ensures stays { StaysKept ⟦<K as Keeper>⟧ desk.old desk.new }
    ensures all { IfOk result (λ failed. Learns now (Some (answers_of message.now)) (session_of desk.old.state) (session_of desk.new.state)
        lines.old lines.new (faults_of ⟦<K as Keeper>⟧ desk.old.keeper) (faults_of ⟦<K as Keeper>⟧ desk.new.keeper) failed) }
    ensures part { OnErr result (LearnsFirst now (Some (answers_of message.now)) (session_of desk.old.state) (session_of desk.new.state)
        (faults_of ⟦<K as Keeper>⟧ desk.old.keeper) (faults_of ⟦<K as Keeper>⟧ desk.new.keeper)) }
    ensures keeper { IfOk result (λ failed. Counts failed (faults_of ⟦<K as Keeper>⟧ desk.old.keeper) (faults_of ⟦<K as Keeper>⟧ desk.new.keeper)) }
{
    match read_answers(alloc, message) {
        Ok(answers) => learn_rows(alloc, desk, lines, &answers, now),
        Err(DnsFault::Memory) => Err(Memory),
        Err(fault) => {
            append_dns_fault(lines, fault)?;
            Ok(false)
        }
    }
}
