//! The words of which the texts of rulings and verdicts are made.
ghost use Rattle.std.specs.Prelude.{◌≡◌, codes, if◌then◌else◌};
ghost use Rattle.desk_model.specs.Texts.Verdicts as spec;
ghost use Rattle.acl_model.specs.declared.ruling.Ruling.TheVariants.{DropDefault, AcceptDefault};
ghost use Rattle.packet_judge.specs.Verdicts.{forwarded};

use acl_model::{DefaultRule, Why};
use frame_view::Part;
use packet_judge::{Verdict, forwarded};

/// The name of a part that can't be read.
#[tactic(auto, unfolding(crate::specs::Texts::Verdicts::part_name))]
pub fn part_name(part: Part) -> &'static str
    ensures { result.now ≡ spec.part_name part }
{
    match part {
        Part::Ethernet => "ethernet",
        Part::Tag => "tag",
        Part::Ip => "ip",
        Part::Extension => "extension",
        Part::Transport => "transport",
    }
}

/// The name of a default entry that accepts.
#[tactic(auto, unfolding(crate::specs::Texts::Verdicts::ruling_text))]
pub fn default_name(rule: DefaultRule) -> &'static str
    ensures { result.now ≡ spec.ruling_text (AcceptDefault rule) }
{
    match rule {
        DefaultRule::Dns => "default-dns",
        DefaultRule::Ntp => "default-ntp",
    }
}

/// The name of a drop that no entry decided.
#[tactic(auto, unfolding(crate::specs::Texts::Verdicts::ruling_text))]
pub fn why_name(why: Why) -> &'static str
    ensures { result.now ≡ spec.ruling_text (DropDefault why) }
{
    match why {
        Why::NoFile => "drop:no-file",
        Why::NoMatch => "drop:no-match",
    }
}

/// `pass` where the frame passes, and else `drop`.
#[tactic(auto)]
pub fn passing(verdict: &Verdict) -> &'static str
    ensures { result.now ≡ if forwarded verdict.now then codes "pass" else codes "drop" }
{
    if forwarded(verdict) { "pass" } else { "drop" }
}
