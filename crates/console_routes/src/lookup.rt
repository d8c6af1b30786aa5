//! The routes of the console as a router, in which the targets of requests are looked up.
ghost use Rattle.std.specs.Prelude.{◌≡◌, [], IfOk, find};
ghost use Rattle.matchit.specs.Route.{parse_route};
ghost use Rattle.matchit.specs.Router.{InsertsRead};
ghost use Rattle.console_routes.specs.Routes as spec;
ghost use Rattle.console_routes.specs.Table.{table};

use crate::route::Route;
use matchit::{InsertError, Router};
use mud_base::Memory;
use mud_url::before_query;
use std::alloc::Global;
use std::marker::Model;
use std::{fmt, str};

/// All routes of the console, each under its path.
#[derive(Drop)]
pub struct Routes {
    router: Router<Route>,
}

impl Model for Routes {
    ghost use Rattle.std.specs.Prelude.{◌≡◌};
    ghost use Rattle.console_routes.specs.Table.{table};

    ghost Value = { Unit {0} };

    ghost view = { λ _. tt };

    ghost invariant = { λ a. a.router ≡ table };
}

impl fmt::Debug for Routes {
    fn fmt<W: fmt::Write>(&self, f: &mut fmt::Formatter<W>) -> fmt::Result {
        f.write_str("Routes")
    }
}

/// Puts a route under its path.
fn add(router: &mut Router<Route>, route: Route) -> Result<(), InsertError>
    ensures { InsertsRead (parse_route (spec.text_of route)) route router.old router.new result }
{
    router.insert(route.path(), route)
}

/// Puts all routes under their paths.
fn add_all(router: &mut Router<Route>) -> Result<(), InsertError>
    requires { router.old ≡ [] }
    ensures { IfOk result (λ _. router.new ≡ table) }
{
    add(router, Route::Classes)?;
    add(router, Route::Due)?;
    add(router, Route::Files)?;
    add(router, Route::HearDhcp)?;
    add(router, Route::HearLldp)?;
    add(router, Route::Holds)?;
    add(router, Route::Leases)?;
    add(router, Route::Locals)?;
    add(router, Route::Names)?;
    add(router, Route::Packets)?;
    add(router, Route::Revokes)?;
    add(router, Route::Things)?;
    add(router, Route::Verdicts)?;
    add(router, Route::Why)?;
    Ok(())
}

/// The route whose path is this text.
fn route_at(router: &Router<Route>, path: &str) -> Option<Route>
    requires { router.now ≡ table }
    ensures { result ≡ find (spec.has_path path.now) spec.all_routes }
{
    match router.at(path) {
        Ok(found) => Some(*found.value),
        Err(_) => None,
    }
}

impl Routes {
    /// All routes. The memory for every lookup is taken here.
    pub fn new(alloc: Global) -> Result<Routes, Memory> {
        let mut router = Router::new(alloc);
        match add_all(&mut router) {
            Ok(()) => Ok(Routes { router }),
            Err(_) => {
                drop(router);
                Err(Memory)
            }
        }
    }

    /// The route of a target: the one whose path stands before the first `?`, octet for octet. None
    /// exactly where no route has that path. It takes no memory.
    #[tactic(auto, using(crate::proofs::Paths::none_by_path), unfolding(crate::specs::Routes::route_of))]
    pub fn route_of(&self, target: &[u8]) -> Option<Route>
        ensures { result ≡ spec.route_of target.now }
    {
        match str::from_utf8(before_query(target)) {
            Ok(path) => route_at(&self.router, path),
            // Each path of a route is text.
            Err(_) => None,
        }
    }
}
