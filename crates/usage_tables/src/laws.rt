//! Laws of the commands on files, each on a function that does nothing.
ghost use Rattle.std.specs.Prelude.{◌≡◌, ℕ, ◌≤◌, IsTrue, IfOk, IsOkAnd, List, length, Some, Ok};
ghost use Rattle.mud_file.specs.declared.usage_file.UsageFile.{UsageFile};
ghost use Rattle.mud_file.specs.File.{file_of};
ghost use Rattle.usage_tables.specs.Held.{HeldFile};
ghost use Rattle.usage_tables.specs.Imports.{holds_octets, IsSameAgain};
ghost use Rattle.usage_tables.specs.declared.approval.OperatorVerdict.{OperatorVerdict};
ghost use Rattle.usage_tables.specs.declared.cached_file.CachedFile.{CachedFile};
ghost use Rattle.usage_tables.specs.Files.{file_at, is_held, IsSoundFiles};
ghost use Rattle.usage_tables.specs.FileCommands.{TellsChange, import_step, verdict_step, revoke_step};

/// Every step on files keeps them sound.
pub fn files_stay_sound()
    // The moment is none after the last one.
    ensures imports { (files : List CachedFile) → IsSoundFiles files → (octets : List ℕ) (fetched : ℕ)
        → fetched ≤ 253402300799
        → IfOk (import_step octets fetched files) (λ after. IsSoundFiles after.files) }
    ensures verdict { (files : List CachedFile) → IsSoundFiles files → (url digest : List ℕ)
        (v : OperatorVerdict)
        → IfOk (verdict_step url digest v files) (λ after. IsSoundFiles after.files) }
    ensures revoke { (files : List CachedFile) → IsSoundFiles files → (url : List ℕ)
        → IfOk (revoke_step url files) (λ after. IsSoundFiles after.files) }
{}

/// Every step on files says that it changes the list exactly where it does.
pub fn files_change_as_told()
    ensures imports { (files : List CachedFile) → IsSoundFiles files → (octets : List ℕ) (fetched : ℕ)
        → IfOk (import_step octets fetched files) (TellsChange files) }
    ensures verdict { (files : List CachedFile) → IsSoundFiles files → (url digest : List ℕ)
        (v : OperatorVerdict) → IfOk (verdict_step url digest v files) (TellsChange files) }
    ensures revoke { (files : List CachedFile) → IsSoundFiles files → (url : List ℕ)
        → IfOk (revoke_step url files) (TellsChange files) }
{}

/// The import of octets that are held of their URL already is `same`, and changes no more than when
/// they were fetched.
pub fn imports_are_idle()
    ensures { (files : List CachedFile) (octets : List ℕ) (fetched : ℕ) (file : UsageFile)
        (row : CachedFile) → file_of octets ≡ Ok file → file_at file.url files ≡ Some row
        → IsTrue (holds_octets octets row)
        → IsOkAnd (import_step octets fetched files) (IsSameAgain file.url files) }
{}

/// What holds of each file that may be held: it was fetched at a moment, and its octets are a usage
/// file of the URL, at most 262,144 of them.
pub fn held_files_are_bounded()
    ensures octets { (url : List ℕ) (held : HeldFile) → IsTrue (is_held url held)
        → length held.octets ≤ 262144 }
    ensures fetched { (url : List ℕ) (held : HeldFile) → IsTrue (is_held url held)
        → held.fetched ≤ 253402300799 }
{}
