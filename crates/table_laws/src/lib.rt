//! Laws of the manager's tables: what each command keeps, whether it changes a list, and what it
//! does to the bindings of the tables, each as the contract of a function that does nothing. And
//! the bindings that go and come with a change of rows: the rows lend the keys of their bindings,
//! so that the text of a key is copied only where its binding goes or comes.
#![tactic(auto)]

pub mod bindings;
pub mod binds;
pub mod changes;
pub mod leases;
pub mod lent;
pub mod rows;

pub use changes::changed_bindings;
pub use lent::{LentBinding, LentKey};
pub use rows::BindingRow;
