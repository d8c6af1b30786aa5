//! The first entry that matches decides.
ghost use Rattle.acl_model.specs.FirstMatch.{FirstMatchDecides};

/// A ruling accepts or drops by an entry of the file exactly where that entry is the first that
/// matches and its action is this one. It accepts by a default entry exactly where no entry of the
/// file matches and this default entry is the first that does. Otherwise it drops. (RFC 8519,
/// section 3: the entries are an ordered list; RFC 8520, Appendix A: they are processed in their
/// order, with the defaults behind them.)
pub fn first_match_decides()
    ensures { FirstMatchDecides }
{}
