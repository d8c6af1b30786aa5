//! The members of bodies.
ghost use Rattle.std.specs.Prelude.{◌≡◌};

/// A member of a body that is read.
#[derive(Clone, Copy)]
pub enum Member {
    /// `address`
    Address,
    /// `class`
    Class,
    /// `mac`
    Mac,
    /// `my-controller-of`
    MyControllerOf,
    /// `name`
    Name,
    /// `prefixes`
    Prefixes,
    /// `seconds`
    Seconds,
    /// `sha256`
    Sha256,
    /// `ttl`
    Ttl,
    /// `url`
    Url,
    /// `verdict`
    Verdict,
}

impl Member {
    ghost use Rattle.console_bodies.specs.Members.{name_of};

    /// The name of the member.
    #[tactic(auto, unfolding(crate::specs::Members::name_of))]
    pub fn name(self) -> &'static str
        ensures { result.now ≡ name_of self }
    {
        match self {
            Member::Address => "address",
            Member::Class => "class",
            Member::Mac => "mac",
            Member::MyControllerOf => "my-controller-of",
            Member::Name => "name",
            Member::Prefixes => "prefixes",
            Member::Seconds => "seconds",
            Member::Sha256 => "sha256",
            Member::Ttl => "ttl",
            Member::Url => "url",
            Member::Verdict => "verdict",
        }
    }
}
