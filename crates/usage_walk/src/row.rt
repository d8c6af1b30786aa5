//! Rows of the tables of members.
ghost use Rattle.std.specs.Prelude.{◌≡◌};
ghost use Rattle.usage_walk.specs.Tables.{row};

use crate::member::Member;

/// A row of the table of an object: a member that may stand in it, and how it is read.
#[derive(Clone, Copy)]
pub struct Row<H> {
    /// The member.
    pub member: Member,
    /// How it is read.
    pub how: H,
}

impl<H> Row<H> {
    /// The row of this member.
    pub fn new(member: Member, how: H) -> Row<H>
        ensures { result ≡ row member how }
    {
        Row { member, how }
    }
}
