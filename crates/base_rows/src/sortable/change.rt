//! Changes of rows that are planned, and made later without memory.
ghost use Rattle.std.specs.Prelude.{◌≡◌};
ghost use Rattle.std.specs.Option.{option_map};

use super::{KeyOf, Sortable};
use mud_base::Listed;
use std::marker::Model;

/// A change of rows of type `R`: the row that a key names goes, where there is one, and then these
/// rows are put in, from the first to the last. Contracts see the key as the sort key that it
/// names.
#[derive(Drop)]
pub struct Change<K: KeyOf<R>, R: Sortable> {
    gone: Option<K>,
    sets: Listed<R>,
}

impl<K: KeyOf<R>, R: Sortable> Model for Change<K, R> {
    ghost use Rattle.std.specs.Option.{option_map};
    ghost use Rattle.base_rows.specs.Changes.{RowChange};

    ghost Value = { RowChange R };

    ghost view = { λ c. record { gone = option_map K.sort_key c.gone; sets = c.sets } };
}

impl<K: KeyOf<R>, R: Sortable> Change<K, R> {
    /// The row that this key names goes, where there is one, and then these are put in.
    pub fn new(gone: Option<K>, sets: Listed<R>) -> Change<K, R>
        ensures gone { result.gone ≡ option_map K.sort_key gone }
        ensures sets { result.sets ≡ sets }
    {
        Change { gone, sets }
    }

    /// The key of the row that goes.
    pub fn gone(&self) -> Option<&K>
        ensures { option_map (λ key. K.sort_key key.now) result ≡ self.now.gone }
    {
        self.gone.as_ref()
    }

    /// The rows that are put in, from the first to the last.
    pub fn sets(&self) -> &[R]
        ensures { result.now ≡ self.now.sets }
    {
        self.sets.as_slice()
    }

    /// The key and the rows.
    pub fn into_parts(self) -> (Option<K>, Listed<R>)
        ensures gone { option_map K.sort_key result.0 ≡ self.gone }
        ensures sets { result.1 ≡ self.sets }
    {
        let Change { gone, sets } = self;
        (gone, sets)
    }
}
