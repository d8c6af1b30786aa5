//! An answer as octets.
ghost use Rattle.std.specs.Prelude.{◌≡◌, ◌++◌, [], ℕ, List, length, IfOk};
ghost use Rattle.mud_world.specs.Kept.{faults_of};
ghost use Rattle.mud_world.specs.Causes.{Counts};
ghost use Rattle.http_requests.specs.declared.fault.MomentFrom.{MomentFrom};
ghost use Rattle.http_requests.specs.Requests.{Request};
ghost use Rattle.http_requests.specs.Parts.{AreParts};
ghost use Rattle.mud_desk.specs.DeskState.{tables_of, session_of};
ghost use Rattle.mud_desk.specs.Stays.{StaysKept};
ghost use Rattle.desk_model.specs.Kept.{IsKept};
ghost use Rattle.console.specs.Replies.{is_unavailable};
ghost use Rattle.console.specs.Answers as spec;

use crate::body::BodyText;
use crate::replies::reply_to;
use console_answers::{AnswerBuffer, Status, body_part, write_head};
use console_routes::Routes;
use http_requests::{FramingFault, RequestFault, RequestParts, is_head};
use mud_base::{Memory, Moment};
use mud_desk::Desk;
use mud_world::Keeper;
use std::alloc::Global;
use std::marker::Model;

/// The octets of an answer: its head, and what of its body is shown. Contracts see it as the list of
/// these octets. The routes by which requests are told apart are made once, beside them.
#[derive(Drop)]
pub struct Answer {
    routes: Routes,
    head: AnswerBuffer,
    body: BodyText,
    by_head: bool,
}

impl Model for Answer {
    ghost use Rattle.std.specs.Prelude.{ℕ, List, ◌++◌};
    ghost use Rattle.console_answers.specs.Heads.{shown};

    ghost Value = { List ℕ };

    ghost view = { λ a. a.head ++ shown a.by_head a.body };
}

/// How many octets a body has.
fn body_len(body: &BodyText) -> usize
    ensures { result ≡ length body.now }
{
    body.octets().len()
}

impl Answer {
    /// No octets. The memory of all short answers and of the routes is taken here.
    #[tactic(auto, unfolding(console_answers::specs::Heads::shown))]
    pub fn new(alloc: Global) -> Result<Answer, Memory>
        ensures { IfOk result (λ answer. answer ≡ []) }
    {
        let head = AnswerBuffer::new(alloc)?;
        let body = BodyText::new(alloc)?;
        let routes = Routes::new(alloc)?;
        Ok(Answer {
            routes,
            head,
            body,
            by_head: false,
        })
    }

    /// The octets in two pieces: the head, and what of the body follows it.
    pub fn pieces(&self) -> (&[u8], &[u8])
        ensures { result.0.now ++ result.1.now ≡ self.now }
    {
        (
            self.head.octets(),
            body_part(self.by_head, self.body.octets()),
        )
    }

    /// Writes the answer to a fault that ends a connection: its head alone, where the method is HEAD.
    /// It takes no memory.
    #[tactic(auto, using(crate::proofs::Faults::short_rule), unfolding(crate::specs::Answers::fault_answer, console_answers::specs::Heads::answer_of, console_answers::specs::Heads::shown))]
    pub fn refuse(&mut self, fault: RequestFault)
        ensures { self.new ≡ spec.fault_answer fault }
    {
        self.body.write_rule(fault.framing.rule().as_bytes());
        let len = self.body.octets().len();
        write_head(&mut self.head, fault_status(fault.framing), None, len, true);
        self.by_head = fault.is_head;
    }
}

/// The status of the answer to a fault that ends a connection.
#[tactic(auto, unfolding(crate::specs::Answers::fault_status))]
fn fault_status(fault: FramingFault) -> Status
    ensures { result ≡ spec.fault_status fault }
{
    match fault {
        FramingFault::Coding => Status::NotImplemented,
        FramingFault::Long => Status::TooLarge,
        FramingFault::NoLength => Status::LengthRequired,
        FramingFault::Head | FramingFault::Length | FramingFault::Moment | FramingFault::Cut => {
            Status::BadRequest
        }
    }
}

/// Answers a whole request that is given this moment: what it asks for is carried out, at the later
/// of this moment and the session's, and the answer stands ready; where the connection ends behind
/// it, it says so. The status of the answer is handed out. Memory that is wanted is answered with
/// 507, and a change that couldn't be kept with 503: all is then as it was. What stands for a change
/// that was kept takes no memory.
#[tactic(auto, unfolding(crate::specs::Answers::octets_of, console_answers::specs::Heads::answer_of))]
pub fn answer_request<K: Keeper>(
    alloc: Global,
    desk: &mut Desk<K>,
    answer: &mut Answer,
    request: &RequestParts<'_>,
    given: Moment,
    closes: bool,
) -> Status
    requires kept { IsKept ⟦<K as Keeper>⟧ desk.old.keeper (tables_of desk.old.state) }
    ensures answer { (from : MomentFrom) (r : Request) → AreParts from r request.now
        → spec.AllowedAnswer (session_of desk.old.state) given r closes result answer.new (session_of desk.new.state) }
    ensures stays { StaysKept ⟦<K as Keeper>⟧ desk.old desk.new }
    ensures cause { Counts (is_unavailable result) (faults_of ⟦<K as Keeper>⟧ desk.old.keeper) (faults_of ⟦<K as Keeper>⟧ desk.new.keeper) }
{
    let reply = reply_to(
        alloc,
        &answer.routes,
        desk,
        &mut answer.body,
        request,
        given,
    );
    let by_head = is_head(request.method);
    let len = body_len(&answer.body);
    write_head(&mut answer.head, reply.status, reply.allow, len, closes);
    answer.by_head = by_head;
    reply.status
}
