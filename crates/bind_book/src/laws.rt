//! Laws of plans, and what the types of values say of them, each on a function that changes nothing.
ghost use Rattle.std.specs.Prelude.{◌≡◌, ◌≤◌, IsOkAnd};
ghost use Rattle.std.specs.List.{AllByRecursion};
ghost use Rattle.mud_base.specs.Numbers.{IsOctets};
ghost use Rattle.table_model.specs.ItemFields.{IsAddr};
ghost use Rattle.table_model.specs.Binds.{IsKeptNetwork, IsSoundBinds};
ghost use Rattle.table_model.specs.BindCommands.{BindStep};
ghost use Rattle.bind_book.specs.Book.{Book};
ghost use Rattle.bind_book.specs.Plans.{Plan, IsPlanOf, changed_binds, HasRoomFor};

use mud_base::{Addr, Moment, Prefix};

/// A plan of a step, over the book as the plan left it.
pub fn plans_can_be_committed()
    // It can be committed,
    ensures can { (step : BindStep) (book : Book) (change : Plan) → IsPlanOf step book change
        → HasRoomFor change.rows book × IsSoundBinds (changed_binds change.rows book.binds) }
    // and that leads to the lists of the step.
    ensures leads { (step : BindStep) (book : Book) (change : Plan) → IsPlanOf step book change
        → IsOkAnd step (λ after. changed_binds change.rows book.binds ≡ after.binds) }
{}

/// An address fits its 32 or 128 bits.
pub fn addr_fits(addr: Addr)
    ensures { IsAddr addr }
{
    match addr {
        Addr::V4(_number) => (),
        Addr::V6(_number) => (),
    }
}

/// A moment is none after the last one.
pub fn moment_fits(moment: Moment)
    ensures { moment ≤ 253402300799 }
{
    let _seconds = moment.seconds();
}

/// The elements of an octet string are octets.
pub fn octets_fit(octets: &[u8])
    ensures { IsOctets octets.now }
{
    let _octets = octets;
}

/// A prefix fixes no more bits than there are, and the others are 0.
#[tactic(auto, unfolding(table_model::specs::Binds::is_prefix))]
fn prefix_fits(prefix: &Prefix)
    ensures { IsKeptNetwork prefix.now }
{
    addr_fits(prefix.addr());
    let _len = prefix.len();
}

/// The same of each of these.
pub fn prefixes_fit(prefixes: &[Prefix])
    ensures { AllByRecursion IsKeptNetwork prefixes.now }
{
    for prefix in prefixes {
        prefix_fits(prefix);
    }
}
