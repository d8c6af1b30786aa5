//! How a usage file is read: the kinds of its values, its members, its lists of named objects, the
//! tables of members that may stand in an object, and the rule and path of what is broken first.
#![tactic(auto)]

pub mod fault;
pub mod kinds;
pub mod member;
pub mod named;
pub mod others;
pub mod path;
pub mod row;
pub mod table;

pub use fault::{Broken, FileFault, Rule};
pub use member::Member;
pub use named::{Element, Elements};
pub use row::Row;
pub use table::{Reads, Spot};
