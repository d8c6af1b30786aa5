//! Laws of patches, each on a function that does nothing.
ghost use Rattle.std.specs.Prelude.{◌≡◌, ◌≤◌, ℕ, List, [], ◌++◌, length, Option};
ghost use Rattle.base_rows.specs.Sortable.{SortKeysAscend};
ghost use Rattle.acl_model.specs.declared.binding.Binding.{Binding};
ghost use Rattle.acl_model.specs.SortKeys.{binding_sort_key};
ghost use Rattle.acl_model.specs.Changes.{replaced};
ghost use Rattle.acl_model.specs.Policies.{UrlPolicy};
ghost use Rattle.base_rows.specs.declared.edit.Edit.{Edit};
ghost use Rattle.base_rows.specs.Edits.{edited};
ghost use Rattle.acl_rows.specs.declared.row.Row.{Row};
ghost use Rattle.acl_rows.specs.declared.row.Owner.TheVariants as owner;
ghost use Rattle.acl_rows.specs.SortKeys.{row_sort_key};
ghost use Rattle.acl_rows.specs.Rows.{Slots, rows_of};
ghost use Rattle.acl_changes.specs.Patch.{IsPatch, rows_apart};
ghost use Rattle.acl_changes.specs.Touched.{touches, with_edits};
ghost use Rattle.acl_changes.specs.PolicyTouched.{policy_touches, IsSlotChange};

/// What a patch makes of the rows before.
pub fn patched_rows_are_made_anew()
    // The edited rows are the rows made anew,
    ensures rows { (slots : Slots) (bindings : List Binding) (slots' : Slots) (bindings' : List Binding)
        (edits : List (Edit Row)) → IsPatch slots bindings slots' bindings' edits
        → edited row_sort_key edits (rows_of slots bindings) ≡ rows_of slots' bindings' }
    // and there are no more edits than rows before or after and not both.
    ensures few { (slots : Slots) (bindings : List Binding) (slots' : Slots) (bindings' : List Binding)
        (edits : List (Edit Row)) → IsPatch slots bindings slots' bindings' edits
        → length edits ≤ rows_apart (rows_of slots bindings) (rows_of slots' bindings') }
{}

/// The edits at the sort keys of the entries that have the key of a binding that goes or comes, at
/// that binding's address, are a patch.
pub fn touched_sort_keys_make_a_patch()
    ensures { (slots : Slots) (gone : List Binding) (come : List Binding) (bindings : List Binding)
        → SortKeysAscend binding_sort_key bindings
        → IsPatch slots bindings slots (replaced gone come bindings)
        (with_edits slots bindings slots (replaced gone come bindings)
        (touches slots (gone ++ come)) []) }
{}

/// The edits at the sort keys of a URL's new entries at the addresses of the bindings of their
/// first keys, and of its old rows that aren't asked for any more, are a patch for a policy that
/// comes, goes or is replaced.
pub fn policies_make_a_patch()
    ensures { (slots : Slots) (slots' : Slots) (bindings : List Binding) (i : ℕ)
        (new : Option UrlPolicy) → IsSlotChange slots slots' i new
        → IsPatch slots bindings slots' bindings (with_edits slots bindings slots' bindings
        (policy_touches slots' bindings (rows_of slots bindings) (owner.Url i) new) []) }
{}
