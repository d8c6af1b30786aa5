//! What a route does, by the method of the request.
ghost use Rattle.std.specs.Prelude.{◌≡◌};
ghost use Rattle.console_routes.specs.Actions as spec;
ghost use Rattle.console_routes.specs.declared.action.Method.TheVariants.{Delete, Get, Post, Put};

use crate::route::Route;

/// A method that a route may have (RFC 9110, 9.3).
#[derive(Clone, Copy)]
pub enum Method {
    /// `DELETE`
    Delete,
    /// `GET`
    Get,
    /// `POST`
    Post,
    /// `PUT`
    Put,
}

/// What may be listed.
#[derive(Clone, Copy)]
pub enum Listing {
    /// The Things with their leases.
    Things,
    /// The usage files that are held.
    Files,
    /// The classes with their addresses.
    Classes,
    /// The local networks.
    Locals,
    /// The names with their addresses.
    Names,
    /// The URLs whose files are to be fetched again.
    Due,
}

/// What the operator states by a JSON object.
#[derive(Clone, Copy)]
pub enum Statement {
    /// A Thing moves to the URL that waits: `mac`, `url`.
    Move,
    /// A Thing goes: `mac`.
    Remove,
    /// A Thing is held: `mac`.
    Hold,
    /// A Thing's hold ends: `mac`.
    Release,
    /// A Thing has an address: `mac`, `address`, `seconds`.
    Lease,
    /// No Thing has an address any longer: `address`.
    EndLease,
    /// What is to become of a candidate: `url`, `sha256`, `verdict`.
    Verdict,
    /// An approval is taken back: `url`.
    Revoke,
    /// A class has an address: `class` or `my-controller-of`, then `address`.
    Bind,
    /// A class no longer has an address: `class` or `my-controller-of`, then `address`.
    Unbind,
    /// The local networks are these: `prefixes`.
    Locals,
    /// A name was observed at an address: `name`, `address`, `ttl`.
    Observe,
}

/// What a request asks for, before its body is read.
#[derive(Clone, Copy)]
pub enum Action {
    /// What a DHCPv4 message says is taken: the body is the message.
    HearDhcp,
    /// What an LLDP frame says is taken: the body is the frame.
    HearLldp,
    /// Rows are listed. The body is ignored.
    List(Listing),
    /// The operator states something: the body is a JSON object.
    State(Statement),
    /// A usage file was fetched: the body is the file.
    Import,
    /// A frame passes or is dropped: the body is the frame.
    Judge,
    /// The verdict on a frame, with what decides it: the body is the frame.
    Why,
}

impl Method {
    /// The method as a request names it, in its own case (RFC 9110, 9.1).
    #[tactic(auto, unfolding(crate::specs::Actions::text_of))]
    pub fn text(self) -> &'static str
        ensures { result.now ≡ spec.text_of self }
    {
        match self {
            Method::Delete => "DELETE",
            Method::Get => "GET",
            Method::Post => "POST",
            Method::Put => "PUT",
        }
    }
}

/// What a route does by GET. None exactly where it hasn't the method.
#[tactic(auto, unfolding(crate::specs::Actions::action_of))]
fn action_of_get(route: Route) -> Option<Action>
    ensures { result ≡ spec.action_of route Get }
{
    match route {
        Route::Things => Some(Action::List(Listing::Things)),
        Route::Files => Some(Action::List(Listing::Files)),
        Route::Classes => Some(Action::List(Listing::Classes)),
        Route::Locals => Some(Action::List(Listing::Locals)),
        Route::Names => Some(Action::List(Listing::Names)),
        Route::Due => Some(Action::List(Listing::Due)),
        Route::HearDhcp | Route::HearLldp | Route::Holds | Route::Leases => None,
        Route::Verdicts | Route::Revokes | Route::Packets | Route::Why => None,
    }
}

/// What a route does by POST. None exactly where it hasn't the method.
#[tactic(auto, unfolding(crate::specs::Actions::action_of))]
fn action_of_post(route: Route) -> Option<Action>
    ensures { result ≡ spec.action_of route Post }
{
    match route {
        Route::HearDhcp => Some(Action::HearDhcp),
        Route::HearLldp => Some(Action::HearLldp),
        Route::Things => Some(Action::State(Statement::Move)),
        Route::Holds => Some(Action::State(Statement::Hold)),
        Route::Leases => Some(Action::State(Statement::Lease)),
        Route::Files => Some(Action::Import),
        Route::Verdicts => Some(Action::State(Statement::Verdict)),
        Route::Revokes => Some(Action::State(Statement::Revoke)),
        Route::Classes => Some(Action::State(Statement::Bind)),
        Route::Names => Some(Action::State(Statement::Observe)),
        Route::Packets => Some(Action::Judge),
        Route::Why => Some(Action::Why),
        Route::Locals | Route::Due => None,
    }
}

/// What a route does by DELETE. None exactly where it hasn't the method.
#[tactic(auto, unfolding(crate::specs::Actions::action_of))]
fn action_of_delete(route: Route) -> Option<Action>
    ensures { result ≡ spec.action_of route Delete }
{
    match route {
        Route::Things => Some(Action::State(Statement::Remove)),
        Route::Holds => Some(Action::State(Statement::Release)),
        Route::Leases => Some(Action::State(Statement::EndLease)),
        Route::Classes => Some(Action::State(Statement::Unbind)),
        Route::HearDhcp | Route::HearLldp | Route::Files | Route::Verdicts => None,
        Route::Revokes | Route::Locals | Route::Names => None,
        Route::Packets | Route::Due | Route::Why => None,
    }
}

/// What a route does by PUT. None exactly where it hasn't the method.
#[tactic(auto, unfolding(crate::specs::Actions::action_of))]
fn action_of_put(route: Route) -> Option<Action>
    ensures { result ≡ spec.action_of route Put }
{
    match route {
        Route::Locals => Some(Action::State(Statement::Locals)),
        Route::HearDhcp | Route::HearLldp | Route::Things | Route::Holds => None,
        Route::Leases | Route::Files | Route::Verdicts | Route::Revokes => None,
        Route::Classes | Route::Names | Route::Packets => None,
        Route::Due | Route::Why => None,
    }
}

/// What the route does by this method. None exactly where it hasn't the method.
pub fn action_of(route: Route, method: Method) -> Option<Action>
    ensures { result ≡ spec.action_of route method }
{
    match method {
        Method::Get => action_of_get(route),
        Method::Post => action_of_post(route),
        Method::Delete => action_of_delete(route),
        Method::Put => action_of_put(route),
    }
}

/// All methods that a route may have.
const METHODS: [Method; 4] = [Method::Delete, Method::Get, Method::Post, Method::Put];

/// The method of this name. None for a name that no route has, as `HEAD`. It takes no memory.
#[tactic(auto, unfolding(crate::specs::Actions::method_of))]
pub fn method_of(name: &[u8]) -> Option<Method>
    ensures { result ≡ spec.method_of name.now }
{
    METHODS
        .iter()
        .copied()
        .find(|method| method.text().as_bytes() == name)
}

/// The methods of a route, by the octets of their names.
#[tactic(auto, unfolding(crate::specs::Actions::methods_of, crate::specs::Actions::action_of))]
pub fn methods_of(route: Route) -> &'static [Method]
    ensures { result.now ≡ spec.methods_of route }
{
    match route {
        Route::HearDhcp
        | Route::HearLldp
        | Route::Verdicts
        | Route::Revokes
        | Route::Packets
        | Route::Why => &[Method::Post],
        Route::Due => &[Method::Get],
        Route::Holds | Route::Leases => &[Method::Delete, Method::Post],
        Route::Files | Route::Names => &[Method::Get, Method::Post],
        Route::Locals => &[Method::Get, Method::Put],
        Route::Things | Route::Classes => &[Method::Delete, Method::Get, Method::Post],
    }
}
