//! Laws of the definitions, each on a function that does nothing.
ghost use Rattle.mud_file.specs.Bounds.{ReadFilesAreBounded};

/// What holds of each usage file that is read: at most 128 entries of a direction, at most six member
/// selectors in an entry, from 1 to 168 hours, and its URL in its canonical text.
pub fn read_files_are_bounded()
    ensures { ReadFilesAreBounded }
{}
