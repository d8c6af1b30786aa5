//! Spools: files that wait to be read.
ghost use Rattle.std.specs.Prelude.{◌≡◌, ◌≤◌, ℕ, Bool, List, length, None, option_map, IfOk};
ghost use Rattle.mud_world.specs.Calls.{counted};
ghost use Rattle.mud_world.specs.Causes.{Counts};
ghost use Rattle.mud_world.specs.View.{SpoolView};

use crate::fault::SpoolFault;
use mud_base::{Bytes, Listed};
use std::alloc::Global;

/// The most octets that a read of a file gives: one more than the largest usage file has.
pub const MOST_READ: usize = 262_145;

/// A folder of files. It counts its failures: a failure raises the count by one, the count never
/// falls, and one that has reached the last u64 stays there. Want of memory isn't counted. It tells
/// too whether its last call failed: so a run that says that it ended at a failure says that no call
/// came behind it.
pub trait Spool {
    ghost use Rattle.mud_world.specs.Files.{content_of, has_failed, names_of, read_part};

    /// Whether it tells its files.
    ghost tells: { Type 0 };

    /// What counts of it: names and contents, where it tells them (of two files with one name the
    /// first counts), how often a call has failed, and whether the last of its calls has.
    ghost view: { Self → SpoolView };

    /// The names of the files.
    fn list(&mut self, alloc: Global) -> Result<Listed<Bytes>, SpoolFault>
        ensures names { tells → IfOk result (λ names. names ≡ names_of (view self.old).files) }
        ensures same { tells → (view self.new).files ≡ (view self.old).files }
        ensures cause { Counts (has_failed result) (view self.old).faults (view self.new).faults }
        ensures count { (view self.new).faults ≡ counted (has_failed result) (view self.old).faults }
        ensures last { (view self.new).failed ≡ has_failed result };

    /// The first 262,145 octets of the file of that name, or all of them where it has fewer. It
    /// fails where there is no such file.
    fn read(&mut self, alloc: Global, name: &[u8]) -> Result<Bytes, SpoolFault>
        ensures octets { tells → IfOk result (λ octets.
            option_map read_part (content_of (view self.old).files name.now) ≡ Some octets) }
        ensures within { IfOk result (λ octets. length octets ≤ 262145) }
        ensures absent { tells → content_of (view self.old).files name.now ≡ None → result ≡ Err SpoolFault.Failed }
        ensures same { tells → (view self.new).files ≡ (view self.old).files }
        ensures cause { Counts (has_failed result) (view self.old).faults (view self.new).faults }
        ensures count { (view self.new).faults ≡ counted (has_failed result) (view self.old).faults }
        ensures last { (view self.new).failed ≡ has_failed result };
}
