//! What a line says of the reply to a command.
ghost use Rattle.std.specs.Prelude.{◌≡◌, ◌++◌, OnOk};
ghost use Rattle.desk_model.specs.Texts.Words as spec;
ghost use Rattle.desk_model.specs.declared.reply.Refusal.TheVariants.{Files};
ghost use Rattle.usage_tables.specs.declared.cache_fault.CacheFault.TheVariants.{File};

use crate::{Refusal, Reply};
use mud_base::{Bytes, Memory};
use mud_file::Broken;
use std::alloc::Global;
use text_values::{append_number, append_path_part};
use usage_tables::CacheFault;

/// Adds a number and a name, each behind a space.
#[tactic(auto, unfolding(crate::specs::Texts::Words::rule_text))]
fn append_rule(line: &mut Bytes, number: u8, name: &str) -> Result<(), Memory>
    ensures { OnOk result (line.new ≡ line.old ++ spec.rule_text number name.now) }
{
    append_number(line, u64::from(number))?;
    line.append(b" ")?;
    line.append(name.as_bytes())
}

/// Adds the rule that a file breaks, and where.
#[tactic(auto, unfolding(crate::specs::Texts::Words::refusal_text))]
fn append_broken(alloc: Global, line: &mut Bytes, broken: &Broken) -> Result<(), Memory>
    ensures { OnOk result (line.new ≡ line.old ++ (spec.refusal_text (Files (File broken.now)))) }
{
    append_rule(line, broken.rule.number(), broken.rule.name())?;
    append_path_part(alloc, line, broken.path.octets())
}

/// Adds the number and the name of the rule by which a command is refused.
#[tactic(auto, unfolding(crate::specs::Texts::Words::refusal_text))]
fn append_refusal(alloc: Global, line: &mut Bytes, refusal: &Refusal) -> Result<(), Memory>
    ensures { OnOk result (line.new ≡ line.old ++ spec.refusal_text refusal.now) }
{
    match refusal {
        Refusal::Files(CacheFault::File(broken)) => append_broken(alloc, line, broken),
        _ => append_rule(line, refusal.number(), refusal.name()),
    }
}

/// Adds what a reply says, behind a space: the word of what was done, `refused` with the number and
/// the name of the rule and, of a file, the path in it, `keeper`, or `memory`.
#[tactic(auto, unfolding(crate::specs::Texts::Words::reply_text))]
pub fn append_reply_words(alloc: Global, line: &mut Bytes, reply: &Reply) -> Result<(), Memory>
    ensures { OnOk result (line.new ≡ line.old ++ spec.reply_text reply.now) }
{
    match reply {
        Reply::Done(outcome) => {
            line.append(b" ")?;
            line.append(outcome.word.text().as_bytes())
        }
        Reply::Refused(refusal) => {
            line.append(b" refused")?;
            append_refusal(alloc, line, refusal)
        }
        Reply::Keeper => line.append(b" keeper"),
        Reply::Memory => line.append(b" memory"),
    }
}
