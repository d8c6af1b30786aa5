//! Replies to requests that ask for nothing, and to those for which there is no memory.
ghost use Rattle.std.specs.Prelude.{◌≡◌, false, None};
ghost use Rattle.console.specs.Replies.{reply, no_storage, is_unavailable};
ghost use Rattle.console.specs.Refused.{IsToldOf, IsRefusalOf};

use crate::body::BodyText;
use crate::question::{NoQuestion, Unasked};
use console_answers::Status;
use console_listings::body_fault_body;
use console_routes::Route;
use std::alloc::Global;

/// A reply whose body is held elsewhere: its status, and the route whose methods are named.
#[derive(Drop)]
pub(crate) struct ReplyHead {
    pub(crate) status: Status,
    pub(crate) allow: Option<Route>,
}

/// Says that memory was wanted. It takes none.
#[tactic(auto, unfolding(crate::specs::Replies::no_storage))]
pub(crate) fn want_memory(body: &mut BodyText) -> Status
    ensures reply { reply result body.new ≡ no_storage }
    ensures known { is_unavailable result ≡ false }
{
    body.write_rule(b"memory");
    Status::NoStorage
}

/// The reply that names no methods.
pub(crate) fn plain(status: Status) -> ReplyHead
    ensures { result ≡ record { status = status; allow = None } }
{
    ReplyHead {
        status,
        allow: None,
    }
}

/// Replies to a request that asks for nothing. Memory is taken only to say what is wrong with a body.
#[tactic(auto, unfolding(crate::specs::Asks::refusal_of, crate::specs::Replies::no_route, crate::specs::Replies::no_method, crate::specs::Replies::reply), using(crate::proofs::Replying::defined, crate::proofs::Replying::made))]
fn refuse(alloc: Global, body: &mut BodyText, nothing: NoQuestion) -> ReplyHead
    ensures reply { IsToldOf nothing (record { status = result.status; allow = result.allow; body = body.new }) }
    ensures known { is_unavailable result.status ≡ false }
{
    match nothing {
        NoQuestion::NoRoute => {
            body.write_rule(b"route");
            plain(Status::NotFound)
        }
        NoQuestion::NoMethod(route) => {
            body.write_rule(b"method");
            ReplyHead {
                status: Status::MethodNotAllowed,
                allow: Some(route),
            }
        }
        NoQuestion::BadBody(fault) => {
            plain(body.take(Status::BadRequest, body_fault_body(alloc, fault)))
        }
    }
}

/// Replies to a request that asks for nothing, or for which there is no memory.
#[tactic(auto, unfolding(crate::specs::Replies::reply))]
pub(crate) fn refuse_unasked(alloc: Global, body: &mut BodyText, unasked: Unasked) -> ReplyHead
    ensures reply { IsRefusalOf unasked (record { status = result.status; allow = result.allow; body = body.new }) }
    ensures known { is_unavailable result.status ≡ false }
{
    match unasked {
        Unasked::Broken(nothing) => refuse(alloc, body, nothing),
        Unasked::Memory => plain(want_memory(body)),
    }
}
