//! What a command changes of the book.
ghost use Rattle.std.specs.Prelude.{◌≡◌, [], IfOk};

use crate::items::{class_puts, locals_put, name_puts};
use acl_model::binding::Binding;
use base_rows::{Change, KeyOf, SortedRows};
use item_codec::Word;
use mud_base::{Bytes, End, Listed, Memory, Prefix};
use mud_world::Put;
use std::alloc::Global;
use std::cmp::Ordering;
use std::marker::Model;
use std::mem;
use table_laws::changed_bindings;
use table_model::{Class, ClassRow, NameKey, NameRow};

/// A name, as the key of its row.
#[derive(Drop)]
pub struct KeptName(pub Bytes);

impl KeyOf<NameRow> for KeptName {
    ghost sort_key = { λ key. key.0 };

    fn order_to(&self, row: &NameRow) -> Ordering {
        NameKey(self.0.octets()).order_to(row)
    }
}

/// The rows that a command changes.
#[derive(Drop)]
pub enum BindRows {
    /// None.
    Nothing,
    /// Those of classes.
    Classes(Change<Class, ClassRow>),
    /// The local networks are these, in order.
    Locals(Listed<Prefix>),
    /// Those of names.
    Names(Change<KeptName, NameRow>),
}

/// What a command answers and changes. It is made by a plan, and done by
/// [`commit`](crate::BindBook::commit).
pub struct BindChange {
    word: Word,
    until: Option<End>,
    rows: BindRows,
    puts: Listed<Put>,
    gone: Listed<Binding>,
    come: Listed<Binding>,
}

// It is written out, so that what lets one go doesn't prove again how each part is dropped.
impl Drop for BindChange {
    fn drop(self) {
        let BindChange {
            word: _,
            until: _,
            rows: _,
            puts: _,
            gone: _,
            come: _,
        } = self;
    }
}

impl Model for BindChange {
    ghost use Rattle.bind_book.specs.Plans.{Plan};

    ghost Value = { Plan };

    ghost view = { λ c. record { word = c.word; until = c.until; rows = c.rows; puts = c.puts; gone = c.gone; come = c.come } };
}

impl BindChange {
    ghost use Rattle.std.specs.Prelude.{All};
    ghost use Rattle.table_model.specs.Fits.{FitsClass, FitsLocals, FitsName};
    ghost use Rattle.bind_book.specs.Plans.{same_plan, class_plan, locals_plan, name_plan};

    /// What was done, in one word.
    pub fn word(&self) -> Word
        ensures { result ≡ self.now.word }
    {
        self.word
    }

    /// The expiry that is kept for an address of a name; none for other commands.
    pub fn until(&self) -> Option<End>
        ensures { result ≡ self.now.until }
    {
        self.until
    }

    /// What changes of the kept items: none where nothing changes, and at most two. The moment of
    /// the change isn't among them.
    pub fn puts(&self) -> &[Put]
        ensures { result.now ≡ self.now.puts }
    {
        self.puts.as_slice()
    }

    /// Moves the puts out. All else of the change stays.
    pub fn take_puts(&mut self) -> Listed<Put>
        ensures puts { result ≡ self.old.puts }
        ensures left { self.new ≡ record self.old { puts = [] } }
    {
        let none = self.puts.empty_like();
        mem::replace(&mut self.puts, none)
    }

    /// The bindings that are no more.
    pub fn gone(&self) -> &[Binding]
        ensures { result.now ≡ self.now.gone }
    {
        self.gone.as_slice()
    }

    /// The bindings that weren't before.
    pub fn come(&self) -> &[Binding]
        ensures { result.now ≡ self.now.come }
    {
        self.come.as_slice()
    }

    /// The rows.
    pub(crate) fn into_rows(self) -> BindRows
        ensures { result ≡ self.rows }
    {
        let BindChange {
            word: _,
            until: _,
            rows,
            puts: _,
            gone: _,
            come: _,
        } = self;
        rows
    }

    /// Nothing changes.
    #[tactic(auto, unfolding(crate::specs::Plans::same_plan))]
    pub(crate) fn same(alloc: Global, until: Option<End>) -> BindChange
        ensures { result ≡ same_plan until }
    {
        BindChange {
            word: Word::Same,
            until,
            rows: BindRows::Nothing,
            puts: Listed::new(alloc),
            gone: Listed::new(alloc),
            come: Listed::new(alloc),
        }
    }

    /// These classes are changed so.
    #[tactic(auto, unfolding(crate::specs::Plans::class_plan))]
    pub(crate) fn of_classes(
        alloc: Global,
        word: Word,
        rows: Change<Class, ClassRow>,
        classes: &SortedRows<ClassRow>,
    ) -> Result<BindChange, Memory>
        requires { All FitsClass rows.sets }
        ensures { IfOk result (λ change. change ≡ class_plan word rows classes.now.rows) }
    {
        let puts = class_puts(alloc, &rows)?;
        let (gone, come) = changed_bindings(alloc, &rows, classes)?;
        Ok(BindChange {
            word,
            until: None,
            rows: BindRows::Classes(rows),
            puts,
            gone,
            come,
        })
    }

    /// The local networks are these.
    #[tactic(auto, unfolding(crate::specs::Plans::locals_plan))]
    pub(crate) fn of_locals(alloc: Global, locals: Listed<Prefix>) -> Result<BindChange, Memory>
        requires { FitsLocals locals }
        ensures { IfOk result (λ change. change ≡ locals_plan locals) }
    {
        let mut puts = Listed::new(alloc);
        puts.push(locals_put(alloc, locals.as_slice())?)?;
        Ok(BindChange {
            word: Word::Set,
            until: None,
            rows: BindRows::Locals(locals),
            puts,
            gone: Listed::new(alloc),
            come: Listed::new(alloc),
        })
    }

    /// These names are changed so.
    #[tactic(auto, unfolding(crate::specs::Plans::name_plan))]
    pub(crate) fn of_names(
        alloc: Global,
        word: Word,
        until: End,
        rows: Change<KeptName, NameRow>,
        names: &SortedRows<NameRow>,
    ) -> Result<BindChange, Memory>
        requires { All FitsName rows.sets }
        ensures { IfOk result (λ change. change ≡ name_plan word until rows names.now.rows) }
    {
        let puts = name_puts(alloc, &rows)?;
        let (gone, come) = changed_bindings(alloc, &rows, names)?;
        Ok(BindChange {
            word,
            until: Some(until),
            rows: BindRows::Names(rows),
            puts,
            gone,
            come,
        })
    }
}
