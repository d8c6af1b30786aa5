//! The interfaces of a section.
ghost use Rattle.std.specs.Prelude.{◌≡◌, ◌+◌, ◌<◌, ◌≤◌, List, [], ◌∷◌, ◌++◌, length, slice_get};

use std::marker::Model;

/// The most interfaces of a section.
pub(crate) const MOST_INTERFACES: usize = 64;

/// What counts of an interface: its link type, and how many units of its time a second has.
/// Contracts see it as the record of both.
#[derive(Clone, Copy)]
pub struct Interface {
    link: u16,
    units: u64,
}

impl Model for Interface {
    ghost use Rattle.std.specs.Prelude.{◌≤◌};
    ghost use Rattle.pcapng_read.specs.Interfaces.{Interface as InterfaceParts};

    ghost Value = { InterfaceParts };

    ghost view = { λ i. record { link = i.link; units = i.units } };

    ghost invariant = { λ i. 1 ≤ i.units };

    ghost inverse = { λ i. record { link = i.link; units = i.units } };
}

impl Interface {
    /// An interface of this link type, whose time has so many units in a second.
    pub(crate) fn new(link: u16, units: u64) -> Interface
        requires { 1 ≤ units }
        ensures { result ≡ record { link = link; units = units } }
    {
        Interface { link, units }
    }

    /// The link type.
    pub(crate) fn link(&self) -> u16
        ensures { result ≡ self.now.link }
    {
        self.link
    }

    /// How many units of its time a second has.
    pub(crate) fn units(&self) -> u64
        ensures value { result ≡ self.now.units }
        ensures some { 1 ≤ result }
    {
        self.units
    }
}

/// The interfaces of a section in their order, 64 at most. Contracts see them as a list.
#[derive(Drop)]
pub struct Interfaces {
    items: [Interface; 64],
    count: usize,
}

impl Model for Interfaces {
    ghost use Rattle.std.specs.Prelude.{◌≡◌, ◌≤◌, List, length, take};
    ghost use Rattle.pcapng_read.specs.Interfaces.{Interface as InterfaceParts};

    ghost Value = { List InterfaceParts };

    ghost view = { λ i. take i.count i.items };

    ghost invariant = { λ i. (i.count ≤ 64) × (length i.items ≡ 64) };
}

impl Interfaces {
    /// No interfaces.
    pub(crate) fn new() -> Interfaces
        ensures { result ≡ [] }
    {
        Interfaces {
            items: [Interface::new(0, 1); 64],
            count: 0,
        }
    }

    /// How many there are.
    pub(crate) fn len(&self) -> usize
        ensures value { result ≡ length self.now }
        ensures most { result ≤ 64 }
    {
        self.count
    }

    /// The one of this number, counted from 0.
    pub(crate) fn get(&self, number: usize) -> Option<Interface>
        ensures { result ≡ slice_get self.now number }
    {
        let (all, _) = self.items.split_at(self.count);
        all.get(number).copied()
    }

    /// Adds one.
    pub(crate) fn push(&mut self, interface: Interface)
        requires { length self.old < 64 }
        ensures { self.new ≡ self.old ++ interface ∷ [] }
    {
        self.items[self.count] = interface;
        self.count += 1;
    }

    /// Forgets all.
    pub(crate) fn clear(&mut self)
        ensures { self.new ≡ [] }
    {
        self.count = 0;
    }
}
