//! Laws of the definitions, each on a function that does nothing.
ghost use Rattle.console_bodies.specs.Laws.{BodiesAskRightly};

/// A body that is read gives only commands that may be given: a class by URI has its form, a lease
/// is for at least a second, and a name is a host name in lower case, observed for 1 to
/// 2,147,483,647 seconds.
pub fn bodies_ask_rightly()
    ensures { BodiesAskRightly }
{}
