//! Laws of the items in which files are kept, each on a function that does nothing.
ghost use Rattle.std.specs.Prelude.{◌≡◌, ℕ, ◌++◌, ◌∷◌, [], true, IsTrue, List, Some};
ghost use Rattle.item_codec.specs.Kinds.{file_kind};
ghost use Rattle.mud_base.specs.Numbers.{IsOctets};
ghost use Rattle.mud_world.specs.declared.item.Item.{Item};
ghost use Rattle.mud_world.specs.Items.{IsDifference, ArePutsOf};
ghost use Rattle.usage_tables.specs.declared.cached_file.CachedFile.{CachedFile};
ghost use Rattle.usage_tables.specs.declared.file_edit.FileEdit.{FileEdit};
ghost use Rattle.usage_tables.specs.Files.{IsKeptFile, IsSoundFiles};
ghost use Rattle.usage_tables.specs.FileEdits.{edited, is_change};
ghost use Rattle.usage_tables.specs.FileItems.{file_item, file_items, file_in, IsFileItem, may_stand_behind, edit_puts};

/// Rows of files and their items.
pub fn files_are_read_back()
    // A row is read back from its item.
    ensures back { (row : CachedFile) → IsKeptFile row → file_in (file_item row) ≡ Some row }
    // An item that reads as a row is that row's item, each octet of it.
    ensures alone { (item : Item) (row : CachedFile) → IsOctets item.body → file_in item ≡ Some row
        → IsFileItem item row }
{}

/// Files that are read one after the other.
pub fn files_are_read_sound()
    // A row that can be kept and may stand behind sound ones makes sound ones.
    ensures push { (files : List CachedFile) (row : CachedFile) → IsSoundFiles files → IsKeptFile row
        → IsTrue (may_stand_behind files row) → IsSoundFiles (files ++ row ∷ []) }
    // Each of sound rows may stand behind those before it.
    ensures behind { (xs : List CachedFile) (row : CachedFile) (ys : List CachedFile)
        → IsSoundFiles (xs ++ row ∷ ys) → IsTrue (may_stand_behind xs row) }
{}

/// The puts of an edit.
pub fn edits_are_put()
    // They are what differs, where the files are sound before and after and an edit that says that it
    // changes something does.
    ensures difference { (files : List CachedFile) → IsSoundFiles files → (edit : FileEdit) (url : List ℕ)
        → IsSoundFiles (edited edit url files)
        → (is_change edit ≡ true → ¬ (edited edit url files ≡ files))
        → IsDifference (file_items files) (file_items (edited edit url files)) (edit_puts edit url files) }
    // They are of the kind of files.
    ensures kind { (files : List CachedFile) (edit : FileEdit) (url : List ℕ)
        → ArePutsOf file_kind (edit_puts edit url files) }
{}
