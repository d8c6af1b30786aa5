//! What adds up in a tally, as laws of its definition, each on a function that does nothing.
ghost use Rattle.std.specs.Prelude.{◌≡◌, ◌+◌, List, length};
ghost use Rattle.std.specs.List.{AllByRecursion};
ghost use Rattle.mud_base.specs.declared.addr.Mac.{Mac as MacValue};
ghost use Rattle.mud_base.specs.declared.packet.Direction.{Direction as DirectionValue};
ghost use Rattle.drop_ledger.specs.Counted.{first_rows, late_rows, total};
ghost use Rattle.drop_ledger.specs.declared.seen.Seen.{Seen as SeenValue};
ghost use Rattle.drop_ledger.specs.declared.seen.Ruled.{Ruled as RuledValue};
ghost use Rattle.drop_ledger.specs.SortKeys.{count_of_row};
ghost use Rattle.drop_ledger.specs.Seen.{AreSums, HasFields, HasThing, rulings, totals_in};
ghost use Rattle.drop_ledger.specs.Ledger.{counts_of, denials, denied_kinds, denied_times, no_match, times_of};

/// All packets are those that are unmanaged, keep the link up or aren't IP, can't be read, pass and
/// are dropped.
pub fn packets_add_up()
    ensures { (all : List SeenValue) → AreSums (totals_in all) }
{}

/// The counts of all rulings are as many as the packets that pass and that are dropped, and those
/// with two rulings once more.
pub fn counts_add_up()
    ensures counts { (done : List RuledValue) → total count_of_row (counts_of done) ≡ length done }
    ensures rulings { (all : List SeenValue) → AllByRecursion HasThing all
        → length (rulings all) ≡ (totals_in all).pass + (totals_in all).drop + (totals_in all).both }
{}

/// What was denied of a Thing and side is, with the others, as much as it was ruled so.
pub fn denied_adds_up()
    ensures { (all : List SeenValue) (mac : MacValue) (side : DirectionValue) → AllByRecursion HasFields all
        → denied_times mac side (first_rows denied_kinds (denials (rulings all))) (late_rows denied_kinds (denials (rulings all))) ≡ times_of mac side no_match (rulings all) }
{}
