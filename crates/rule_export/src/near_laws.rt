//! Laws of the networks, each on a function that does nothing.
ghost use Rattle.std.specs.Prelude.{◌≡◌, true, List};
ghost use Rattle.std.specs.List.{list_any};
ghost use Rattle.mud_base.specs.Addresses.{prefix_holds};
ghost use Rattle.mud_base.specs.declared.addr.Addr.{Addr};
ghost use Rattle.mud_base.specs.declared.addr.Family.{Family};
ghost use Rattle.mud_base.specs.declared.prefix.Prefix.{Prefix};
ghost use Rattle.acl_model.specs.declared.entry.Entry.{Entry};
ghost use Rattle.acl_model.specs.Match.{is_in_family, near_matches};
ghost use Rattle.rule_export.specs.Networks.{has_near, near_networks, asked_networks, joint};

/// One of the networks holds an address of the family exactly where the address meets each near
/// selector, where there is one.
pub fn networks_hold_what_matches()
    ensures { (family : Family) (locals : List Prefix) (entry : Entry) (a : Addr)
        → has_near entry ≡ true → is_in_family family a ≡ true
        → list_any (λ p. prefix_holds p a) (near_networks family locals entry) ≡ near_matches entry a locals }
{}

/// The networks of all choices are those that are found one selector at a time.
pub fn choices_are_joint()
    ensures { (family : Family) (locals : List Prefix) (entry : Entry)
        → asked_networks family locals entry ≡ joint family locals entry.selectors }
{}
