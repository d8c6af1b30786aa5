//! What a request asks for.
ghost use Rattle.std.specs.Prelude.{◌≡◌, true, Err, IfOk, option_and_then};
ghost use Rattle.console_routes.specs.Actions as actions;
ghost use Rattle.mud_base.specs.Readings.{Answers};
ghost use Rattle.mud_base.specs.declared.refusal.Refusal.TheVariants.{Memory};
ghost use Rattle.console_bodies.specs.Bodies.{body_of, takes_memory};
ghost use Rattle.console_bodies.specs.Laws.{AsksRightly};
ghost use Rattle.console.specs.Asks as spec;

use console_bodies::laws::bodies_ask_rightly;
use console_bodies::{Asked, BodyFault, Unread, read_body};
use console_routes::{Action, Route, Routes, action_of, method_of};
use mud_base::{Moment, Refusal};
use std::alloc::Global;

/// What a request asks for: the action of its route by its method, and what its body means there.
#[derive(Drop)]
pub struct Question {
    pub action: Action,
    pub asked: Asked,
}

/// Why a request asks for nothing.
#[derive(Clone, Copy)]
pub enum NoQuestion {
    /// No route has the path of its target.
    NoRoute,
    /// This route has not its method.
    NoMethod(Route),
    /// Its body breaks a rule.
    BadBody(BodyFault),
}

/// Why nothing is asked for: want of memory, or what is wrong with the request.
pub type Unasked = Refusal<NoQuestion>;

/// What a request by this method asks of a route. None where the route has not the method.
fn action_by(route: Route, method: &[u8]) -> Option<Action>
    ensures { result ≡ option_and_then (actions.action_of route) (actions.method_of method.now) }
{
    let method = method_of(method)?;
    action_of(route, method)
}

/// What a request for this action asks for with its body.
#[tactic(auto, unfolding(crate::specs::Asks::by_body))]
fn question_by(alloc: Global, action: Action, body: &[u8], now: Moment) -> Result<Question, Unasked>
    ensures question { Answers (λ q. q) result (spec.by_body action (body_of action body.now now)) }
    ensures wanted { result ≡ Err Memory → takes_memory action ≡ true }
    ensures asked { IfOk result (λ q. AsksRightly q.asked) }
{
    bodies_ask_rightly();
    match read_body(alloc, action, body, now) {
        Ok(asked) => Ok(Question { action, asked }),
        Err(Unread::Broken(fault)) => Err(Unasked::Broken(NoQuestion::BadBody(fault))),
        Err(Unread::Memory) => Err(Unasked::Memory),
    }
}

/// What a request by this method asks of a route.
#[tactic(auto, unfolding(crate::specs::Asks::by_action))]
fn question_to(
    alloc: Global,
    route: Route,
    method: &[u8],
    body: &[u8],
    now: Moment,
) -> Result<Question, Unasked>
    ensures asked { IfOk result (λ q. AsksRightly q.asked) }
    ensures question { Answers (λ q. q) result (spec.by_action route (option_and_then (actions.action_of route) (actions.method_of method.now)) body.now now) }
    ensures wanted { result ≡ Err Memory → spec.reads_with_memory (option_and_then (actions.action_of route) (actions.method_of method.now)) ≡ true }
{
    match action_by(route, method) {
        Some(action) => question_by(alloc, action, body, now),
        None => Err(Unasked::Broken(NoQuestion::NoMethod(route))),
    }
}

/// What a request by this method asks for with this body, taken at this moment: the first thing that
/// is wrong with it is its path, to which no route belongs, its method, which the route has not, or
/// its body. The path may be the target as well. Memory is taken for what the body means.
#[tactic(auto, unfolding(crate::specs::Asks::question_of, crate::specs::Asks::action_at))]
pub(crate) fn question_of(
    alloc: Global,
    routes: &Routes,
    method: &[u8],
    path: &[u8],
    body: &[u8],
    now: Moment,
) -> Result<Question, Unasked>
    ensures question { Answers (λ q. q) result (spec.question_of method.now path.now body.now now) }
    // None is taken to say that no route has the path, or that the route has not the method.
    ensures wanted { result ≡ Err Memory → spec.reads_with_memory (spec.action_at method.now path.now) ≡ true }
    // A command that is asked for may be given.
    ensures asked { IfOk result (λ q. AsksRightly q.asked) }
{
    match routes.route_of(path) {
        Some(route) => question_to(alloc, route, method, body, now),
        None => Err(Unasked::Broken(NoQuestion::NoRoute)),
    }
}
