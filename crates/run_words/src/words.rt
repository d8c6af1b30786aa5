//! The words of the command line.
ghost use Rattle.std.specs.Prelude.{◌≡◌, ◌≤◌, IfSome, option_map, codes, ◌∷◌, []};
ghost use Rattle.run_words.specs.declared.command.Command.TheVariants.{Drill};
ghost use Rattle.std.specs.List.{list_any};
ghost use Rattle.std.specs.String.{string_bytes};
ghost use Rattle.run_words.specs.Words as spec;
ghost use Rattle.run_words.specs.declared.command.Message.TheVariants.{Dhcp, Lldp};

use crate::command::{Command, Message, ReportKind};
use crate::parser::is_refused;
use mud_base::{mac_of, number_upto};
use std::alloc::Global;

/// The last port of TCP, whose ports are numbers of 16 bits (RFC 9293, 3.1).
const LAST_PORT: u64 = 65_535;

/// The most connections that a run serves.
const MOST_CONNECTIONS: u64 = 1_000_000;

/// The most packets of a made network.
const MOST_PACKETS: u64 = 100_000;

/// Whether the first octet of a word is a dash.
#[tactic(auto, unfolding(crate::specs::Words::begins_with_dash))]
fn begins_with_dash(word: &str) -> bool
    ensures { result ≡ spec.begins_with_dash word.now }
{
    match word.as_bytes() {
        [first, ..] => *first == b'-',
        [] => false,
    }
}

/// Whether a word names a store or a folder.
#[tactic(auto, unfolding(crate::specs::Words::is_path))]
fn is_path(word: &str) -> bool
    ensures { result ≡ spec.is_path word.now }
{
    !word.is_empty()
}

/// The number from 1 to `most` that a word is.
#[tactic(auto, unfolding(crate::specs::Words::count_in))]
fn count_in(most: u64, word: &str) -> Option<u64>
    ensures value { result ≡ spec.count_in most word.now }
    ensures within { IfSome result (λ number. number ≤ most) }
{
    match number_upto(most, word.as_bytes()) {
        Some(0) | None => None,
        Some(number) => Some(number),
    }
}

/// What `hear` reads, by its word.
#[tactic(auto)]
fn message_in(word: &str) -> Option<Message>
    ensures { result ≡ spec.meaning_in ((codes "dhcp", Dhcp) ∷ (codes "lldp", Lldp) ∷ []) word.now }
{
    match word {
        "dhcp" => Some(Message::Dhcp),
        "lldp" => Some(Message::Lldp),
        _ => None,
    }
}

/// What `report` prints, by its word.
#[tactic(auto, unfolding(crate::specs::Words::kind_in))]
fn kind_in(word: &str) -> Option<ReportKind>
    ensures { result ≡ spec.kind_in word.now }
{
    match word {
        "things" => Some(ReportKind::Things),
        "files" => Some(ReportKind::Files),
        "classes" => Some(ReportKind::Classes),
        "locals" => Some(ReportKind::Locals),
        "names" => Some(ReportKind::Names),
        "due" => Some(ReportKind::Due),
        _ => None,
    }
}

/// A command over a store or a folder.
fn over_path(command: Command, path: &str) -> Option<Command>
    ensures { result ≡ spec.over_path command path.now }
{
    if is_path(path) { Some(command) } else { None }
}

/// The command of a line of one word.
#[tactic(auto, unfolding(crate::specs::Words::line_in))]
fn one_word(word: &str) -> Option<Command>
    ensures { result ≡ spec.line_in (word.now ∷ []) }
{
    match word {
        "check" => Some(Command::Check),
        "frames" => Some(Command::Frames),
        _ => None,
    }
}

/// `drill N`, by its number.
fn drill(packets: &str) -> Option<Command>
    ensures { result ≡ option_map Drill (spec.count_in 100000 packets.now) }
{
    let packets = count_in(MOST_PACKETS, packets)?;
    Some(Command::Drill(packets as u32))
}

/// The command of a line of two words.
#[tactic(auto, unfolding(crate::specs::Words::line_in))]
fn two_words(first: &str, second: &str) -> Option<Command>
    ensures { result ≡ spec.line_in (first.now ∷ second.now ∷ []) }
{
    match first {
        "hear" => Some(Command::Hear(message_in(second)?)),
        "judge" => over_path(Command::Judge, second),
        "snoop" => over_path(Command::Snoop, second),
        "tally" => over_path(Command::Tally, second),
        "replay" => over_path(Command::Replay, second),
        "drill" => drill(second),
        _ => None,
    }
}

/// The command of a line of three words.
#[tactic(auto, unfolding(crate::specs::Words::line_in))]
fn three_words(first: &str, second: &str, third: &str) -> Option<Command>
    ensures { result ≡ spec.line_in (first.now ∷ second.now ∷ third.now ∷ []) }
{
    match first {
        "import" if is_path(second) => over_path(Command::Import, third),
        "report" if is_path(second) => Some(Command::Report(kind_in(third)?)),
        "export" if is_path(second) => Some(Command::Export(mac_of(third.as_bytes())?)),
        _ => None,
    }
}

/// The command of a line of four words.
#[tactic(auto, unfolding(crate::specs::Words::line_in))]
fn four_words(first: &str, second: &str, third: &str, fourth: &str) -> Option<Command>
    ensures { result ≡ spec.line_in (first.now ∷ second.now ∷ third.now ∷ fourth.now ∷ []) }
{
    if first != "serve" || !is_path(second) {
        return None;
    }
    let port = count_in(LAST_PORT, third)?;
    let count = count_in(MOST_CONNECTIONS, fourth)?;
    Some(Command::Serve {
        port: port as u16,
        count: count as u32,
    })
}

/// The command of a line none of whose words begins with a dash.
#[tactic(auto, unfolding(crate::specs::Words::line_in))]
fn line_in(words: &[String]) -> Option<Command>
    ensures { result ≡ spec.line_in (spec.words_of words.now) }
{
    match words {
        [only] => one_word(only.as_str()),
        [first, second] => two_words(first.as_str(), second.as_str()),
        [first, second, third] => three_words(first.as_str(), second.as_str(), third.as_str()),
        [first, second, third, fourth] => four_words(
            first.as_str(),
            second.as_str(),
            third.as_str(),
            fourth.as_str(),
        ),
        _ => None,
    }
}

/// Whether a word begins with a dash.
fn has_dashed(words: &[String]) -> bool
    ensures { result ≡ list_any (λ word. spec.begins_with_dash (string_bytes word)) words.now }
{
    words.iter().any(|word| begins_with_dash(word.as_str()))
}

/// The command that the words after the program's name are. None exactly where they are no listed
/// line.
#[tactic(auto, using(crate::proofs::Lists::any_of_map, crate::proofs::Passing::refused_is_unlisted), unfolding(crate::specs::Words::command_in))]
pub fn command_of(alloc: Global, words: &[String]) -> Option<Command>
    ensures { result ≡ spec.command_in (spec.words_of words.now) }
{
    if has_dashed(words) {
        return None;
    }
    if is_refused(alloc, words) {
        return None;
    }
    line_in(words)
}
