//! How often verdicts and rulings of each kind come.
ghost use Rattle.std.specs.Prelude.{◌≡◌, ◌++◌, ◌^◌, ◌<◌, OnOk, codes, flat_map};
ghost use Rattle.text_values.specs.Numbers.{number_text};
ghost use Rattle.run_drills.specs.Counts as spec;

use acl_model::{DefaultRule, Ruling, Why};
use mud_base::{Bytes, Memory};
use packet_judge::{Verdict, forwarded};
use text_values::append_number;

/// How often rulings of each kind came. No entry is counted for a Thing that the operator holds.
#[derive(Clone, Copy)]
pub struct RulingCounts {
    /// An entry accepted.
    pub accept: u64,
    /// The default entry for DNS accepted.
    pub default_dns: u64,
    /// The default entry for NTP accepted.
    pub default_ntp: u64,
    /// An entry dropped.
    pub drop_entry: u64,
    /// There was no approved usage file.
    pub no_file: u64,
    /// No entry matched.
    pub no_match: u64,
}

/// How often frames were forwarded and dropped, and the rulings on them.
#[derive(Clone, Copy)]
pub struct VerdictCounts {
    pub passed: u64,
    pub dropped: u64,
    pub rulings: RulingCounts,
}

impl RulingCounts {
    ghost use Rattle.std.specs.Prelude.{◌≡◌, ◌+◌, ◌-◌, ◌^◌, []};
    ghost use Rattle.run_drills.specs.Counts.{AreRulingsAtMost, ruling_counts, with_ruling};

    /// No ruling came yet.
    #[tactic(auto, unfolding(crate::specs::Counts::ruling_counts))]
    fn none() -> RulingCounts
        ensures { result ≡ ruling_counts [] }
    {
        RulingCounts {
            accept: 0,
            default_dns: 0,
            default_ntp: 0,
            drop_entry: 0,
            no_file: 0,
            no_match: 0,
        }
    }

    /// Counts a ruling more, where there is one.
    fn add(&mut self, ruling: Option<Ruling>)
        requires { AreRulingsAtMost (2 ^ 64 - 2) self.old }
        ensures { self.new ≡ with_ruling self.old ruling }
    {
        match ruling {
            None | Some(Ruling::DropHeld) => (),
            Some(Ruling::Accept(_)) => self.accept += 1,
            Some(Ruling::AcceptDefault(DefaultRule::Dns)) => self.default_dns += 1,
            Some(Ruling::AcceptDefault(DefaultRule::Ntp)) => self.default_ntp += 1,
            Some(Ruling::Drop(_)) => self.drop_entry += 1,
            Some(Ruling::DropDefault(Why::NoFile)) => self.no_file += 1,
            Some(Ruling::DropDefault(Why::NoMatch)) => self.no_match += 1,
        }
    }
}

impl VerdictCounts {
    ghost use Rattle.std.specs.Prelude.{◌≡◌, ◌+◌, ◌-◌, ◌^◌, []};
    ghost use Rattle.run_drills.specs.Counts.{AreAtMost, verdict_counts, with_rulings_in, with_verdict};

    /// No verdict came yet.
    #[tactic(auto, unfolding(crate::specs::Counts::verdict_counts))]
    pub(crate) fn none() -> VerdictCounts
        ensures { result ≡ verdict_counts [] }
    {
        VerdictCounts {
            passed: 0,
            dropped: 0,
            rulings: RulingCounts::none(),
        }
    }

    /// Counts the rulings of a verdict more.
    #[tactic(auto, using(crate::proofs::Bounds::one_more))]
    fn add_rulings(&mut self, verdict: &Verdict)
        requires { AreAtMost (2 ^ 64 - 3) self.old }
        ensures { self.new ≡ record self.old { rulings = with_rulings_in self.old.rulings verdict.now } }
    {
        if let Verdict::Governed(source, destination) = verdict {
            self.rulings.add(*source);
            self.rulings.add(*destination);
        }
    }

    /// Counts a verdict more.
    #[tactic(auto, unfolding(crate::specs::Counts::with_verdict))]
    pub(crate) fn add(&mut self, verdict: &Verdict)
        requires { AreAtMost (2 ^ 64 - 3) self.old }
        ensures { self.new ≡ with_verdict self.old verdict.now }
    {
        self.add_rulings(verdict);
        if forwarded(verdict) {
            self.passed += 1;
        } else {
            self.dropped += 1;
        }
    }
}

/// A name and its number.
#[derive(Clone, Copy)]
struct Count<'a>(&'a [u8], u64);

/// Adds the line of a count.
#[tactic(auto)]
fn append_count(lines: &mut Bytes, row: Count) -> Result<(), Memory>
    ensures { OnOk result (lines.new ≡ lines.old ++ (row.entry.0.now ++ number_text row.entry.1 ++ codes "\n")) }
{
    lines.append(row.0)?;
    append_number(lines, row.1)?;
    lines.append(b"\n")
}

/// Adds the lines of counts, in their order.
fn append_lines(lines: &mut Bytes, rows: &[Count]) -> Result<(), Memory>
    ensures { OnOk result (lines.new ≡ lines.old ++ flat_map (λ row. row.0.now ++ number_text row.1 ++ codes "\n") rows.now) }
{
    'rows: for row in rows {
        append_count(lines, *row)?;
    }
    Ok(())
}

/// Adds the lines that say how many Things, usage files and packets there were, and what came of the
/// packets.
#[tactic(auto, unfolding(crate::specs::Counts::count_lines))]
pub(crate) fn append_counts(
    lines: &mut Bytes,
    things: u64,
    files: u64,
    packets: u64,
    counts: &VerdictCounts,
) -> Result<(), Memory>
    ensures { OnOk result (lines.new ≡ lines.old ++ spec.count_lines things files packets counts.now) }
{
    let rulings = &counts.rulings;
    append_lines(
        lines,
        &[
            Count(b"things", things),
            Count(b"files", files),
            Count(b"packets", packets),
            Count(b"pass", counts.passed),
            Count(b"drop", counts.dropped),
            Count(b"accept", rulings.accept),
            Count(b"default-dns", rulings.default_dns),
            Count(b"default-ntp", rulings.default_ntp),
            Count(b"drop-entry", rulings.drop_entry),
            Count(b"no-file", rulings.no_file),
            Count(b"no-match", rulings.no_match),
        ],
    )
}
