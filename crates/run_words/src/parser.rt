//! The lines as `clap` is told of them. It refuses words that are no listed line before they are
//! read, and lets each listed line through.
ghost use Rattle.std.specs.Prelude.{◌≡◌, IfOk, false, map, true};
ghost use Rattle.clap.specs.Words.{app_of, rule_of};
ghost use Rattle.run_words.specs.Parser as spec;
ghost use Rattle.run_words.specs.Words.{words_of};

use clap::error::ErrorKind;
use clap::{Arg, Command as Parser};
use std::alloc::{AllocError, Global};

/// A line of the usage text.
pub(crate) struct Line {
    /// The name of its command.
    pub(crate) name: &'static str,
    /// The names of the words behind it.
    pub(crate) operands: &'static [&'static str],
}

/// The lines of the usage text, but that each of `hear`'s two is `hear MESSAGE`.
const LINES: [Line; 12] = [
    Line {
        name: "hear",
        operands: &["MESSAGE"],
    },
    Line {
        name: "check",
        operands: &[],
    },
    Line {
        name: "frames",
        operands: &[],
    },
    Line {
        name: "judge",
        operands: &["STORE"],
    },
    Line {
        name: "snoop",
        operands: &["STORE"],
    },
    Line {
        name: "tally",
        operands: &["STORE"],
    },
    Line {
        name: "import",
        operands: &["STORE", "FOLDER"],
    },
    Line {
        name: "report",
        operands: &["STORE", "KIND"],
    },
    Line {
        name: "export",
        operands: &["STORE", "MAC"],
    },
    Line {
        name: "replay",
        operands: &["STORE"],
    },
    Line {
        name: "serve",
        operands: &["STORE", "PORT", "COUNT"],
    },
    Line {
        name: "drill",
        operands: &["N"],
    },
];

/// The lines.
fn lines() -> &'static [Line]
    ensures { map spec.shown result.now ≡ spec.lines }
{
    &LINES
}

/// A word behind the name of a line's command.
fn operand<'a>(alloc: Global, name: &'a str) -> Arg<'a>
    ensures rule { rule_of result ≡ spec.operand_rule name.entry.now }
    ensures local { result.global ≡ false }
{
    Arg::new(alloc, name).required(true)
}

/// A line as a subcommand, which wants each of its words.
#[tactic(auto, using(crate::proofs::Building::one_more))]
fn subcommand<'a>(alloc: Global, line: &Line) -> Result<Parser<'a>, AllocError>
    ensures { IfOk result (spec.IsLine (spec.line_of (spec.shown line.now))) }
{
    let mut subcommand = Parser::new(alloc, line.name);
    let operands = line.operands;
    for name in operands {
        subcommand = subcommand.arg(operand(alloc, name))?;
    }
    Ok(subcommand)
}

/// The program without its lines. It has neither `--help` nor `help`.
fn bare_program<'a>(alloc: Global) -> Parser<'a>
    ensures { app_of result ≡ spec.bare_program }
{
    Parser::new(alloc, "mud")
        .no_binary_name(true)
        .disable_help_flag(true)
        .disable_help_subcommand(true)
        .subcommand_required(true)
}

/// The program with one more line.
fn with_line<'a>(alloc: Global, program: Parser<'a>, line: &Line) -> Result<Parser<'a>, AllocError>
    ensures { IfOk result (λ wider. app_of wider ≡ spec.with_line (app_of program.entry) (spec.shown line.now)) }
{
    match subcommand(alloc, line) {
        Ok(line) => program.subcommand(line),
        Err(error) => {
            drop(program);
            Err(error)
        }
    }
}

/// The program with its lines.
#[tactic(auto, using(crate::proofs::Building::one_more))]
fn program<'a>(alloc: Global) -> Result<Parser<'a>, AllocError>
    ensures { IfOk result (λ program. app_of program ≡ spec.program) }
{
    let mut program = bare_program(alloc);
    let lines = lines();
    for line in lines {
        program = with_line(alloc, program, line)?;
    }
    Ok(program)
}

/// Whether `clap` refuses the words. Where it has no memory, it doesn't.
pub(crate) fn is_refused(alloc: Global, words: &[String]) -> bool
    ensures { result ≡ true → spec.IsRefused (words_of words.now) }
{
    let Ok(program) = program(alloc) else {
        return false;
    };
    match program.try_get_matches_from(words) {
        Ok(_) => false,
        Err(error) => match error.kind() {
            ErrorKind::OutOfMemory => false,
            _ => true,
        },
    }
}
