//! Laws of a tally, each on a function that does nothing.
ghost use Rattle.std.specs.Prelude.{◌≡◌, ℕ, ◌+◌, ◌++◌, List};
ghost use Rattle.run_captures.specs.Same.{HoldTheSame};
ghost use Rattle.run_captures.specs.Fold.{lines_from, state_after};
ghost use Rattle.desk_model.specs.Sessions.{Session};
ghost use Rattle.drop_ledger.specs.Counted.{first_rows, late_rows, total};
ghost use Rattle.drop_ledger.specs.SortKeys.{count_of_row};
ghost use Rattle.drop_ledger.specs.Seen.{AreSums, rulings, totals_in};
ghost use Rattle.drop_ledger.specs.Ledger.{counts_of, denials, denied_kinds, denied_times, no_match, times_of};
ghost use Rattle.acl_model.specs.declared.ruling.Ruling.{Ruling};
ghost use Rattle.mud_base.specs.declared.addr.Mac.{Mac};
ghost use Rattle.mud_base.specs.declared.packet.Direction.{Direction};
ghost use Rattle.read_buffer.specs.Packets.{Packet};
ghost use Rattle.run_packets.specs.Tally.Store.{output_of_tally};
ghost use Rattle.run_packets.specs.Tally.Tallied.{begun, hours, in_hour, seen_in, tally_ending, tally_step, tally_text};

/// The lines that are written as packets come, and those at their end, are the lines that the list of
/// all packets tells: each hour that has rulings once, and then what was denied.
pub fn lines_are_those_of_the_list()
    ensures { (session : Session) (packets : List Packet)
        → lines_from tally_step (begun session) packets ++ tally_ending (state_after tally_step (begun session) packets) ≡ tally_text (seen_in session packets) }
{}

/// What the lines of a tally say adds up. All packets are those without a ruling, by their verdicts,
/// and those that pass and are dropped by one.
pub fn tally_adds_up()
    ensures packets { (session : Session) (packets : List Packet) → AreSums (totals_in (seen_in session packets)) }
    // The counts of all hours are as many as `pass`, `drop` and `both`.
    ensures counts { (session : Session) (packets : List Packet) → let all = seen_in session packets in
        total (λ hour. total count_of_row (counts_of (rulings (in_hour hour all)))) (hours all) ≡ (totals_in all).pass + (totals_in all).drop + (totals_in all).both }
    // What was denied of a Thing and side is, with the others, as much as it was ruled so in all hours.
    ensures denied { (session : Session) (packets : List Packet) (mac : Mac) (side : Direction) → let done = rulings (seen_in session packets) in
        denied_times mac side (first_rows denied_kinds (denials done)) (late_rows denied_kinds (denials done)) ≡ times_of mac side no_match done }
    // That is the sum of what the hours' lines count, and so it is of each ruling.
    ensures hours { (session : Session) (packets : List Packet) (mac : Mac) (side : Direction) (ruling : Ruling) → let all = seen_in session packets in
        total (λ hour. times_of mac side ruling (rulings (in_hour hour all))) (hours all) ≡ times_of mac side ruling (rulings all) }
{}

/// Two whole captures whose packets have the same seconds and octets are counted alike, in whichever
/// formats they are.
#[tactic(auto, using(crate::proofs::TallyLaws::SameCaptures::tallied_alike))]
pub fn captures_that_hold_the_same_are_counted_alike()
    ensures { (session : Session) (one : List ℕ) (other : List ℕ) → HoldTheSame one other → output_of_tally session one ≡ output_of_tally session other }
{}
