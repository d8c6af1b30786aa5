//! A packet that was judged, and the rulings in it.
ghost use Rattle.std.specs.Prelude.{◌≡◌, ◌/◌};
ghost use Rattle.drop_ledger.specs.Seen as spec;

use mud_base::{Direction, Fields, Mac, Moment};
use packet_judge::{Ruling, Verdict};

/// How many seconds an hour has.
const SECONDS_PER_HOUR: u64 = 3600;

/// A packet that was judged.
#[derive(Clone, Copy)]
pub struct Seen {
    /// The moment at which it was judged.
    pub moment: Moment,
    /// The verdict.
    pub verdict: Verdict,
    /// The hardware address that sent it.
    pub source: Mac,
    /// The hardware address that it is for.
    pub destination: Mac,
    /// What its headers say; None for a frame that isn't a readable IP packet.
    pub fields: Option<Fields>,
}

/// The ruling on the Thing at one side of a packet.
#[derive(Clone, Copy)]
pub struct Ruled {
    /// The Thing.
    pub mac: Mac,
    /// The side of the packet that it is on.
    pub side: Direction,
    /// The ruling.
    pub ruling: Ruling,
    /// What the packet's headers say.
    pub fields: Option<Fields>,
}

/// The ruling on a side of a frame with this verdict, where one was given.
#[tactic(auto, unfolding(crate::specs::Seen::ruling_on))]
fn ruling_on(verdict: &Verdict, side: Direction) -> Option<Ruling>
    ensures { result ≡ spec.ruling_on verdict.now side }
{
    match (*verdict, side) {
        (Verdict::Governed(source, _), Direction::From) => source,
        (Verdict::Governed(_, destination), Direction::To) => destination,
        (Verdict::Unmanaged, _) => None,
        (Verdict::Link, _) => None,
        (Verdict::Unreadable(_), _) => None,
    }
}

/// The hour of a moment: whole hours since 1970-01-01T00:00:00Z.
pub fn hour_at(moment: Moment) -> u64
    ensures { result ≡ moment / 3600 }
{
    moment.seconds() / SECONDS_PER_HOUR
}

impl Seen {
    /// The hour of the packet.
    #[tactic(auto, unfolding(crate::specs::Seen::hour_of))]
    pub fn hour(&self) -> u64
        ensures { result ≡ spec.hour_of self.now }
    {
        hour_at(self.moment)
    }

    /// The hardware address at this side.
    #[tactic(auto, unfolding(crate::specs::Seen::mac_on))]
    fn mac_on(&self, side: Direction) -> Mac
        ensures { result ≡ spec.mac_on self.now side }
    {
        match side {
            Direction::From => self.source,
            Direction::To => self.destination,
        }
    }

    /// The ruling on the Thing at this side, where one was given.
    #[tactic(auto, unfolding(crate::specs::Seen::ruled_on))]
    pub(crate) fn ruled_on(&self, side: Direction) -> Option<Ruled>
        ensures { result ≡ spec.ruled_on self.now side }
    {
        match ruling_on(&self.verdict, side) {
            Some(ruling) => Some(Ruled {
                mac: self.mac_on(side),
                side,
                ruling,
                fields: self.fields,
            }),
            None => None,
        }
    }

    /// Whether a ruling was given.
    pub(crate) fn is_ruled(&self) -> bool
        ensures { result ≡ spec.is_ruled self.now }
    {
        self.ruled_on(Direction::From).is_some() || self.ruled_on(Direction::To).is_some()
    }
}
