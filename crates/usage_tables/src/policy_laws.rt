//! Laws of the policies of approved files, each on a function that does nothing.
ghost use Rattle.std.specs.Prelude.{◌≡◌, ℕ, bytes_eq, List, if◌then◌else◌};
ghost use Rattle.base_rows.specs.Sortable.{SortKeysAscend};
ghost use Rattle.acl_model.specs.Policies.{policy_in};
ghost use Rattle.usage_tables.specs.declared.cached_file.CachedFile.{CachedFile};
ghost use Rattle.usage_tables.specs.declared.file_edit.FileEdit.{FileEdit};
ghost use Rattle.usage_tables.specs.Files.{url_of};
ghost use Rattle.usage_tables.specs.FileEdits.{edited};
ghost use Rattle.usage_tables.specs.Policies.{policy_of, policies_of, policy_change, policy_after};

/// The policies of approved files.
pub fn policies_follow_files()
    // The list of them has that of each URL.
    ensures listed { (files : List CachedFile) (url : List ℕ) → SortKeysAscend url_of files
        → policy_in (policies_of files) url ≡ policy_of files url }
    // An edit changes that of its URL as it says, and leaves the others.
    ensures edited { (files : List CachedFile) (edit : FileEdit) (url other : List ℕ)
        → SortKeysAscend url_of files
        → policy_of (edited edit url files) other
        ≡ (if bytes_eq url other then policy_after (policy_change edit) files url else policy_of files other) }
{}
