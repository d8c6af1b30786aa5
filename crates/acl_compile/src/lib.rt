//! The rows of the approved policies, kept up as bindings and policies change, and lent to rulings.
//! A change is planned first, with memory and a bounded number of steps, and committed later without
//! memory and without a search.
#![tactic(auto)]

pub mod compiled;
mod plan;
mod url_slots;

pub use compiled::Compiled;
pub use plan::RowPlan;
