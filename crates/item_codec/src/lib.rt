//! The fields of kept items: numbers, strings, lists and the version, how they are written and how
//! they are read back; and the kinds of the items.
#![tactic(auto)]

pub mod fault;
mod fields;
pub mod kinds;
pub mod laws;
pub mod reader;
pub mod word;
pub mod writer;

pub use fault::CodecFault;
pub use reader::FieldReader;
pub use word::Word;
pub use writer::FieldWriter;
