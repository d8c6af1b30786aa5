//! Which word of a line that isn't listed is wrong.
ghost use Rattle.std.specs.Prelude.{◌≡◌, ◌+◌, ◌<◌, ◌^◌, length, option_map};
ghost use Rattle.run_advice.specs.WrongWords as spec;
ghost use Rattle.run_words.specs.Words.{begins_with_dash, words_of};

use mud_base::{mac_of, number_upto};

/// What stands in a command's line behind its name.
#[derive(Clone, Copy)]
pub enum Operand {
    /// What `hear` reads.
    Message,
    /// The word of a store.
    Store,
    /// The path of a folder.
    Folder,
    /// What `report` prints.
    Kind,
    /// A hardware address.
    Mac,
    /// A port.
    Port,
    /// A number of connections.
    Count,
    /// A number of packets.
    Packets,
}

/// What is wrong with the words of a line that isn't listed. Words are counted from 0.
#[derive(Clone, Copy)]
pub enum WordFault {
    /// There is no word.
    NoCommand,
    /// This word begins with a dash.
    Dash(usize),
    /// The first word is no command.
    UnknownCommand,
    /// The command's line has a further word.
    Missing(Operand),
    /// The command's line ends in front of this word.
    TooMany(usize),
    /// This word isn't what stands there in the command's line.
    Unfit(usize, Operand),
}

const NO_OPERAND: [Operand; 0] = [];

const MESSAGE: [Operand; 1] = [Operand::Message];

const STORE: [Operand; 1] = [Operand::Store];

const FOLDER: [Operand; 2] = [Operand::Store, Operand::Folder];

const KIND: [Operand; 2] = [Operand::Store, Operand::Kind];

const MAC: [Operand; 2] = [Operand::Store, Operand::Mac];

const PORT: [Operand; 3] = [Operand::Store, Operand::Port, Operand::Count];

const PACKETS: [Operand; 1] = [Operand::Packets];

/// What stands behind the name of a command, where it is one.
fn operands_of(name: &str) -> Option<&'static [Operand]>
    ensures { option_map (λ operands. operands.now) result ≡ spec.operands_of name.now }
{
    match name {
        "check" | "frames" => Some(&NO_OPERAND),
        "hear" => Some(&MESSAGE),
        "judge" | "snoop" | "tally" | "replay" => Some(&STORE),
        "import" => Some(&FOLDER),
        "report" => Some(&KIND),
        "export" => Some(&MAC),
        "serve" => Some(&PORT),
        "drill" => Some(&PACKETS),
        _ => None,
    }
}

/// Whether a word is a number from 1 to `most`.
#[tactic(auto, unfolding(run_words::specs::Words::count_in))]
fn is_count(most: u64, word: &str) -> bool
    ensures { result ≡ spec.is_count most word.now }
{
    match number_upto(most, word.as_bytes()) {
        Some(0) | None => false,
        Some(_) => true,
    }
}

/// Whether a word is what may stand there.
#[tactic(auto, unfolding(run_words::specs::Words::is_path, run_words::specs::Words::kind_in))]
fn fits(operand: Operand, word: &str) -> bool
    ensures { result ≡ spec.fits operand word.now }
{
    match operand {
        Operand::Message => matches!(word, "dhcp" | "lldp"),
        Operand::Store | Operand::Folder => !word.is_empty(),
        Operand::Kind => matches!(
            word,
            "things" | "files" | "classes" | "locals" | "names" | "due"
        ),
        Operand::Mac => mac_of(word.as_bytes()).is_some(),
        Operand::Port => is_count(65_535, word),
        Operand::Count => is_count(1_000_000, word),
        Operand::Packets => is_count(100_000, word),
    }
}

/// What is wrong with the words from this index on, where these operands are wanted.
fn fault_behind(index: usize, operands: &[Operand], words: &[String]) -> Option<WordFault>
    requires { index + length words.now < 2 ^ 64 }
    ensures { result ≡ spec.fault_behind index operands.now (words_of words.now) }
{
    match (operands, words) {
        ([], []) => None,
        ([], [_, ..]) => Some(WordFault::TooMany(index)),
        ([operand, ..], []) => Some(WordFault::Missing(*operand)),
        ([operand, more @ ..], [word, rest @ ..]) => {
            if fits(*operand, word.as_str()) {
                fault_behind(index + 1, more, rest)
            } else {
                Some(WordFault::Unfit(index, *operand))
            }
        }
    }
}

/// Whether the first octet of a word is a dash.
#[tactic(auto, unfolding(run_words::specs::Words::begins_with_dash))]
fn begins_with_dash(word: &str) -> bool
    ensures { result ≡ begins_with_dash word.now }
{
    match word.as_bytes() {
        [first, ..] => *first == b'-',
        [] => false,
    }
}

/// The index of the first word from this one on that begins with a dash.
fn dashed_behind(index: usize, words: &[String]) -> Option<usize>
    requires { index + length words.now < 2 ^ 64 }
    ensures { result ≡ spec.dashed_behind index (words_of words.now) }
{
    match words {
        [] => None,
        [word, rest @ ..] => {
            if begins_with_dash(word.as_str()) {
                Some(index)
            } else {
                dashed_behind(index + 1, rest)
            }
        }
    }
}

/// What is wrong with the words after the program's name: the first word that begins with a dash, or
/// else the first one that the command's line hasn't there. None where each is as it has to be.
pub fn word_fault(words: &[String]) -> Option<WordFault>
    ensures { result ≡ spec.word_fault (words_of words.now) }
{
    if let Some(index) = dashed_behind(0, words) {
        return Some(WordFault::Dash(index));
    }
    let [name, behind @ ..] = words else {
        return Some(WordFault::NoCommand);
    };
    match operands_of(name.as_str()) {
        Some(operands) => fault_behind(1, operands, behind),
        None => Some(WordFault::UnknownCommand),
    }
}
