//! The book: its listings, the plans of its commands, and what they make of it.
ghost use Rattle.std.specs.Prelude.{◌≡◌, ◌==◌, ◌&&◌, ◌≤◌, ◌<◌, ◌^◌, length, All, false, IsTrue, IfOk, OnErr};
ghost use Rattle.table_model.specs.Fits.{FitsClass, FitsName};
ghost use Rattle.table_model.specs.Binds.{is_class, is_name, IsSoundBinds, IsSoundClasses, IsSoundLocals, IsSoundNames};
ghost use Rattle.table_model.specs.BindCommands.{bind_class_step, unbind_class_step, set_locals_step, observe_name_step};
ghost use Rattle.table_model.specs.TakenItems.{no_binds, is_empty, set_classes, set_locals, set_names, with_bind_item};
ghost use Rattle.std.specs.Option.{option_map};
ghost use Rattle.table_model.specs.BindItems.{with_class_item, with_locals_item, with_name_item};
ghost use Rattle.bind_book.specs.Reading.{IsTaken};
ghost use Rattle.bind_book.specs.Plans.{changed_binds, class_plan, name_plan, HasRoomFor, Plans};

use crate::change::{BindChange, BindRows};
use crate::classes::{ClassChange, bind_rows, unbind_rows};
use crate::laws::{addr_fits, moment_fits, octets_fit, prefixes_fit};
use crate::locals::set_locals;
use crate::names::{NameChange, Observed, observe};
use crate::read::{class_in, locals_in, name_in};
use base_rows::SortedRows;
use item_codec::Word;
use item_codec::kinds::{CLASS_KIND, LOCALS_KIND, NAME_KIND};
use mud_base::{Addr, End, Listed, Memory, Moment, Prefix};
use mud_world::Item;
use std::alloc::Global;
use std::marker::Model;
use table_model::limits::{MOST_CLASSES, MOST_NAMES};
use table_model::{BindFault, Class, ClassRow, NameRow};

/// The classes, the local networks and the names that are kept. Contracts see the three lists, and
/// for how many more classes and names there is room without memory.
pub struct BindBook {
    alloc: Global,
    classes: SortedRows<ClassRow>,
    locals: Listed<Prefix>,
    names: SortedRows<NameRow>,
}

impl Drop for BindBook {
    fn drop(self) {
        let BindBook {
            alloc: _,
            classes: _,
            locals: _,
            names: _,
        } = self;
    }
}

impl Model for BindBook {
    ghost use Rattle.table_model.specs.Binds.{IsSoundBinds};
    ghost use Rattle.bind_book.specs.Book.{Book};

    ghost Value = { Book };

    ghost view = { λ b. record { binds = record { classes = b.classes.rows; locals = b.locals; names = b.names.rows }; class_room = b.classes.room; name_room = b.names.room } };

    ghost invariant = { λ b. IsSoundBinds (record { classes = b.classes.rows; locals = b.locals; names = b.names.rows }) };
}

impl BindBook {
    /// The book in which nothing is kept. It takes no memory.
    #[tactic(auto, using(table_model::proofs::TakenLaws::sound_no_binds), unfolding(table_model::specs::TakenItems::no_binds))]
    pub fn new(alloc: Global) -> BindBook
        ensures { result.binds ≡ no_binds }
    {
        BindBook {
            alloc,
            classes: SortedRows::new(alloc),
            locals: Listed::new(alloc),
            names: SortedRows::new(alloc),
        }
    }

    /// The classes: those by URI, and then those by MUD URL, in the order of their texts.
    pub fn classes(&self) -> &[ClassRow]
        ensures rows { result.now ≡ self.now.binds.classes }
        ensures sound { IsSoundClasses result.now }
    {
        self.classes.rows()
    }

    /// The local networks, in order, each once.
    pub fn locals(&self) -> &[Prefix]
        ensures prefixes { result.now ≡ self.now.binds.locals }
        ensures sound { IsSoundLocals result.now }
    {
        self.locals.as_slice()
    }

    /// The names, in the order of their octets.
    pub fn names(&self) -> &[NameRow]
        ensures rows { result.now ≡ self.now.binds.names }
        ensures sound { IsSoundNames result.now }
    {
        self.names.rows()
    }

    /// Plans to bind an address to a class (RFC 8520, 4.6 and 4.7). It is `bound`, or `same` where
    /// it is bound already. It is refused where the class isn't kept and 256 classes are, or where
    /// it has 64 other addresses. A class by URI has 1 to 255 octets from 21 to 7E hex.
    pub fn plan_bind(&mut self, class: &Class, addr: Addr) -> Result<BindChange, BindFault>
        requires { IsTrue (is_class class.now) }
        ensures { Plans (bind_class_step class.now addr self.old.binds) self.old self.new result }
    {
        addr_fits(addr);
        let found = bind_rows(self.alloc, class, addr, &self.classes)?;
        match found {
            Some(rows) => Ok(self.plan_classes(Word::Bound, rows)?),
            None => Ok(BindChange::same(self.alloc, None)),
        }
    }

    /// Plans to take an address out of a class: it is `unbound`. A class with no address left goes.
    /// It is refused where the class doesn't have the address; so is what is no class, since none
    /// is kept.
    pub fn plan_unbind(&mut self, class: &Class, addr: Addr) -> Result<BindChange, BindFault>
        ensures { Plans (unbind_class_step class.now addr self.old.binds) self.old self.new result }
    {
        let rows = unbind_rows(self.alloc, class, addr, &self.classes)?;
        Ok(self.plan_classes(Word::Unbound, rows)?)
    }

    /// Plans a change of classes.
    fn plan_classes(&mut self, word: Word, rows: ClassChange) -> Result<BindChange, Memory>
        requires { All FitsClass rows.sets }
        ensures same { self.new.binds ≡ self.old.binds }
        ensures plan { IfOk result (λ change. change ≡ class_plan word rows self.old.binds.classes) }
        ensures room { IfOk result (λ _. length rows.sets ≤ self.new.class_room) }
    {
        self.classes.reserve(rows.sets().len())?;
        BindChange::of_classes(self.alloc, word, rows, &self.classes)
    }

    /// Plans to make these prefixes the local networks, in order and each once (RFC 8520, 4.5). It
    /// is `set`, or `same` where they are the local networks already. It is refused where more than
    /// 64 of them are distinct.
    pub fn plan_locals(&mut self, prefixes: &[Prefix]) -> Result<BindChange, BindFault>
        ensures { Plans (set_locals_step prefixes.now self.old.binds) self.old self.new result }
    {
        prefixes_fit(prefixes);
        let found = set_locals(self.alloc, prefixes, self.locals.as_slice())?;
        let Some(locals) = found else {
            return Ok(BindChange::same(self.alloc, None));
        };
        Ok(BindChange::of_locals(self.alloc, locals)?)
    }

    /// Plans to keep that a name was observed at an address at this moment, for `ttl` seconds from
    /// then (RFC 8520, 8): from 1 to 2,147,483,647 (RFC 2181, 8). The expiry that is kept is
    /// [`BindChange::until`]. It is `renewed` where it takes the place of an earlier expiry that is
    /// live, `same` where such an expiry is as late, and else `new`: then the addresses of the name
    /// whose expiries have come go, and where 4,096 other names are kept, the least one goes that
    /// has no address with a live expiry. It is refused where the name has 64 other live addresses,
    /// or where there is no such least name. The name is a host name in lower case.
    pub fn plan_observe(
        &mut self,
        name: &[u8],
        addr: Addr,
        ttl: u32,
        now: Moment,
    ) -> Result<BindChange, BindFault>
        requires name { IsTrue (is_name name.now) }
        requires some { 0 < ttl }
        requires most { ttl < 2 ^ 31 }
        ensures { Plans (observe_name_step name.now addr ttl now self.old.binds) self.old self.new result }
    {
        addr_fits(addr);
        moment_fits(now);
        let Observed { word, until, rows } = observe(
            self.alloc,
            name,
            addr,
            ttl,
            now,
            &self.names,
        )?;
        match rows {
            Some(rows) => Ok(self.plan_names(word, until, rows)?),
            None => Ok(BindChange::same(self.alloc, Some(until))),
        }
    }

    /// Plans a change of names.
    fn plan_names(&mut self, word: Word, until: End, rows: NameChange) -> Result<BindChange, Memory>
        requires { All FitsName rows.sets }
        ensures same { self.new.binds ≡ self.old.binds }
        ensures plan { IfOk result (λ change. change ≡ name_plan word until rows self.old.binds.names) }
        ensures room { IfOk result (λ _. length rows.sets ≤ self.new.name_room) }
    {
        self.names.reserve(rows.sets().len())?;
        BindChange::of_names(self.alloc, word, until, rows, &self.names)
    }

    /// Makes a change that was planned, where nothing was committed since. It takes no memory, and
    /// cannot fail.
    #[tactic(auto, unfolding(crate::specs::Plans::changed_binds, crate::specs::Plans::HasRoomFor))]
    pub fn commit(&mut self, change: BindChange)
        requires room { HasRoomFor change.rows self.old }
        requires sound { IsSoundBinds (changed_binds change.rows self.old.binds) }
        ensures { self.new.binds ≡ changed_binds change.rows self.old.binds }
    {
        match change.into_rows() {
            BindRows::Nothing => {}
            BindRows::Classes(rows) => self.classes.change(rows),
            BindRows::Locals(locals) => self.locals = locals,
            BindRows::Names(rows) => self.names.change(rows),
        }
    }

    /// Takes what an item keeps, where that may stand behind what the items taken so far keep, which
    /// were those before it in the keeper's order: true exactly there. Else, and without memory, the
    /// book is as before.
    #[tactic(auto, unfolding(table_model::specs::TakenItems::with_bind_item))]
    pub fn take(&mut self, item: &Item) -> Result<bool, Memory>
        ensures taken { IfOk result (IsTaken (with_bind_item self.old.binds item.now) self.old.binds self.new.binds) }
        ensures refused { OnErr result (self.new.binds ≡ self.old.binds) }
    {
        if item.kind == CLASS_KIND && self.locals.len() == 0 && self.names.is_empty() {
            self.take_class(item)
        } else if item.kind == LOCALS_KIND && self.names.is_empty() {
            self.take_locals(item)
        } else if item.kind == NAME_KIND {
            self.take_name(item)
        } else {
            Ok(false)
        }
    }

    /// Takes a class, where there are no local networks and no names yet.
    fn take_class(&mut self, item: &Item) -> Result<bool, Memory>
        requires { IsTrue (item.now.kind == 3 && is_empty self.old.binds.locals && is_empty self.old.binds.names) }
        ensures taken { IfOk result (IsTaken (option_map (set_classes self.old.binds) (with_class_item self.old.binds.classes item.now)) self.old.binds self.new.binds) }
        ensures refused { OnErr result (self.new.binds ≡ self.old.binds) }
    {
        octets_fit(item.body.octets());
        let Some(row) = class_in(self.alloc, item)? else {
            return Ok(false);
        };
        if self.classes.len() >= MOST_CLASSES {
            return Ok(false);
        }
        self.classes.reserve(1)?;
        Ok(self.classes.push_last(row))
    }

    /// Takes the local networks, where there are none yet, and no names.
    fn take_locals(&mut self, item: &Item) -> Result<bool, Memory>
        requires { IsTrue (item.now.kind == 4 && is_empty self.old.binds.names) }
        ensures taken { IfOk result (IsTaken (option_map (set_locals self.old.binds) (with_locals_item self.old.binds.locals item.now)) self.old.binds self.new.binds) }
        ensures refused { OnErr result (self.new.binds ≡ self.old.binds) }
    {
        octets_fit(item.body.octets());
        if self.locals.len() != 0 {
            return Ok(false);
        }
        let Some(locals) = locals_in(self.alloc, item)? else {
            return Ok(false);
        };
        self.locals = locals;
        Ok(true)
    }

    /// Takes a name.
    fn take_name(&mut self, item: &Item) -> Result<bool, Memory>
        requires { IsTrue (item.now.kind == 5) }
        ensures taken { IfOk result (IsTaken (option_map (set_names self.old.binds) (with_name_item self.old.binds.names item.now)) self.old.binds self.new.binds) }
        ensures refused { OnErr result (self.new.binds ≡ self.old.binds) }
    {
        octets_fit(item.body.octets());
        let Some(row) = name_in(self.alloc, item)? else {
            return Ok(false);
        };
        if self.names.len() >= MOST_NAMES {
            return Ok(false);
        }
        self.names.reserve(1)?;
        Ok(self.names.push_last(row))
    }
}
