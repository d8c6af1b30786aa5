//! The commands that take changes from outside into a store: `import`, and `replay` and `serve`.
#![tactic(auto)]

mod import;
mod serving;

pub use import::store::import_store;
pub use serving::replay::replay_store;
pub use serving::serve::serve_store;
