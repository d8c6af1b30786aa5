//! Doors: where octets come in and go out, connection by connection.
ghost use Rattle.std.specs.Prelude.{◌≡◌, ◌<◌, ◌≤◌, ℕ, Bool, [], length, take, false, IfOk, OnOk, OnErr, is_err};
ghost use Rattle.mud_world.specs.Calls.{counted};
ghost use Rattle.mud_world.specs.Causes.{Counts};
ghost use Rattle.mud_world.specs.Door.{Reads, bound_anew, departed, gone_on, has_more, put_out};
ghost use Rattle.mud_world.specs.View.{DoorView};

use crate::fault::Failed;

/// A door to connections, one after the other. A door that wasn't bound has one connection and
/// stands at it from the start. A bound door stands at none before its first `next`, and after a
/// `next` that didn't answer true.
///
/// It counts its failures: those of `bind` and `next` together, those of `read`, and those of
/// `write`. A failure raises its count by one, no count ever falls, and a count that has reached the
/// last u64 stays there. It tells too whether its last call failed: so a run that says that it ended
/// at a failure says that no call came behind it.
pub trait Door {
    /// Whether it tells its connections.
    ghost tells: { Type 0 };

    /// What counts of it: its connections, where it tells them, how often `bind` or `next`, `read` and
    /// `write` have failed, and whether the last of its calls has.
    ghost view: { Self → DoorView };

    /// Binds the port, so that connections to it come by `next`.
    fn bind(&mut self, port: u16) -> Result<(), Failed>
        ensures ok { tells → OnOk result ((view self.new).state ≡ bound_anew port (view self.old).state) }
        ensures err { tells → OnErr result ((view self.new).state ≡ (view self.old).state) }
        ensures cause { Counts (is_err result) (view self.old).turns (view self.new).turns }
        ensures count { (view self.new).turns ≡ counted (is_err result) (view self.old).turns }
        ensures last { (view self.new).failed ≡ is_err result }
        ensures reads { (view self.new).reads ≡ (view self.old).reads }
        ensures writes { (view self.new).writes ≡ (view self.old).writes };

    /// Leaves the connection and goes to the next one. It answers false exactly where there is none.
    fn next(&mut self) -> Result<bool, Failed>
        ensures ok { tells → IfOk result (λ more.
            (more ≡ has_more (view self.old).state.ahead)
            × ((view self.new).state ≡ gone_on (view self.old).state (view self.old).state.ahead)) }
        ensures err { tells → OnErr result ((view self.new).state ≡ departed (view self.old).state) }
        ensures cause { Counts (is_err result) (view self.old).turns (view self.new).turns }
        ensures count { (view self.new).turns ≡ counted (is_err result) (view self.old).turns }
        ensures last { (view self.new).failed ≡ is_err result }
        ensures reads { (view self.new).reads ≡ (view self.old).reads }
        ensures writes { (view self.new).writes ≡ (view self.old).writes };

    /// Reads octets of the connection into the front of the buffer, and answers how many. It
    /// answers 0 only for an empty buffer, at the end of the connection's octets, or where the
    /// door stands at no connection. A read that fails takes no octet.
    fn read(&mut self, buf: &mut [u8]) -> Result<usize, Failed>
        ensures within { IfOk result (λ n. n ≤ length buf.new) }
        ensures octets { tells → Reads (view self.old).state (view self.new).state result buf.new }
        ensures nowhere { tells → (view self.old).state.stands ≡ false → IfOk result (λ n. n ≡ 0) }
        ensures err { tells → OnErr result ((view self.new).state ≡ (view self.old).state) }
        ensures cause { Counts (is_err result) (view self.old).reads (view self.new).reads }
        ensures count { (view self.new).reads ≡ counted (is_err result) (view self.old).reads }
        ensures last { (view self.new).failed ≡ is_err result }
        ensures turns { (view self.new).turns ≡ (view self.old).turns }
        ensures writes { (view self.new).writes ≡ (view self.old).writes };

    /// Writes octets from the front of the piece to the connection, and answers how many: at least
    /// one, unless the piece is empty. A write that fails puts none out, and so does one of a piece
    /// that isn't empty where the door stands at no connection: it fails.
    fn write(&mut self, piece: &[u8]) -> Result<usize, Failed>
        ensures within { IfOk result (λ n. n ≤ length piece.now) }
        ensures some { IfOk result (λ n. 0 < length piece.now → 0 < n) }
        ensures octets { tells → IfOk result (λ n. (view self.new).state ≡ put_out (take n piece.now) (view self.old).state) }
        ensures nowhere { tells → (view self.old).state.stands ≡ false → OnOk result (piece.now ≡ []) }
        ensures err { tells → OnErr result ((view self.new).state ≡ (view self.old).state) }
        ensures cause { Counts (is_err result) (view self.old).writes (view self.new).writes }
        ensures count { (view self.new).writes ≡ counted (is_err result) (view self.old).writes }
        ensures last { (view self.new).failed ≡ is_err result }
        ensures turns { (view self.new).turns ≡ (view self.old).turns }
        ensures reads { (view self.new).reads ≡ (view self.old).reads };
}

/// A door that is lent is a door.
impl<D: Door> Door for &mut D {
    ghost tells = { D.tells };

    ghost view = { λ door. D.view door.now };

    fn bind(&mut self, port: u16) -> Result<(), Failed> {
        (**self).bind(port)
    }

    fn next(&mut self) -> Result<bool, Failed> {
        (**self).next()
    }

    fn read(&mut self, buf: &mut [u8]) -> Result<usize, Failed> {
        (**self).read(buf)
    }

    fn write(&mut self, piece: &[u8]) -> Result<usize, Failed> {
        (**self).write(piece)
    }
}
