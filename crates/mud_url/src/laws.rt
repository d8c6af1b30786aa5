//! Laws of the definitions, each on a function that does nothing.
ghost use Rattle.std.specs.Prelude.{◌≡◌};
ghost use Rattle.mud_url.specs.Host.{lowered};
ghost use Rattle.mud_url.specs.Url.{canonical, host_of, host_part};

/// The host of a canonical text is the host of the URL that it stands for, in lower case.
pub fn canonical_keeps_host(url: &[u8])
    ensures { host_of (canonical url.now) ≡ lowered (host_part url.now) }
{}
