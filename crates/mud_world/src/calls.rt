//! The calls of something in memory, counted from 1, and those of them that are to fail.
ghost use Rattle.std.specs.Prelude.{◌≡◌, true};
ghost use Rattle.mud_world.specs.Calls.{counted, is_listed, next_call};
ghost use Rattle.mud_world.specs.Causes.{Counts};

use mud_base::Listed;

/// Counts a call, and answers whether it is to fail.
pub(crate) fn is_to_fail(failing: &Listed<u64>, calls: &mut u64) -> bool
    ensures value { result ≡ is_listed failing.now (next_call calls.old) }
    ensures calls { calls.new ≡ next_call calls.old }
{
    *calls = calls.saturating_add(1);
    failing.as_slice().contains(calls)
}

/// Counts a failure. A count that has reached the last u64 stays there.
pub(crate) fn raise(count: &mut u64)
    ensures value { count.new ≡ counted true count.old }
    ensures cause { Counts true count.old count.new }
{
    *count = count.saturating_add(1);
}
