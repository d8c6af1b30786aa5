//! The routes of the console: the route of a target, its methods, and what it does by each. Nothing
//! here knows of connections, bodies or tables. Memory is taken where the routes are made, and for no
//! request.
#![tactic(auto)]

pub mod action;
pub mod lookup;
pub mod route;

pub use action::{Action, Listing, Method, Statement, action_of, method_of, methods_of};
pub use lookup::Routes;
pub use route::Route;
