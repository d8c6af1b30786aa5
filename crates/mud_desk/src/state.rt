//! All that the desk holds beside its keeper.
ghost use Rattle.std.specs.Prelude.{◌≡◌, ℕ, List, ◌+◌, ◌-◌, ◌^◌, ◌<◌, ◌≤◌, max, false, Ok, Err, IfOk, IfErr, OnOk, IsOkAnd, length};
ghost use Rattle.base_rows.specs.Ledgers.{IsBlankOf};
ghost use Rattle.acl_changes.specs.Patch.{rows_apart};
ghost use Rattle.acl_compile.specs.Plans.{IsKept};
ghost use Rattle.table_model.specs.Expiries.{for_ever};
ghost use Rattle.frame_view.specs.Frame.{frame_of};
ghost use Rattle.packet_judge.specs.Verdicts.{steps_on};
ghost use Rattle.desk_model.specs.DeskTables.{IsSound};
ghost use Rattle.desk_model.specs.Refusals.{is_want_of_memory};
ghost use Rattle.desk_model.specs.Commands.{IsAsked, command_step};
ghost use Rattle.desk_model.specs.Sessions.{AllowedVerdict, opened, verdict_in};
ghost use Rattle.desk_model.specs.Verdicts.{policy_at};
ghost use Rattle.mud_desk.specs.Items.Loaded.{loaded_desk};
ghost use Rattle.mud_desk.specs.RuleInputs.{AreRuleInputsOf, rule_inputs, rows_read, ruling_steps};
ghost use Rattle.mud_desk.specs.Findings.{AreFindingsOn};
ghost use Rattle.desk_books.specs.Changes.{desk_after};
ghost use Rattle.desk_books.specs.Planned.{IsPlanned, IsReady, IsPaid, IsRead};
ghost use Rattle.mud_desk.specs.DeskState.{tables_of, session_of};

use crate::desk_rules::DeskRules;
use crate::findings::{Findings, findings_with};
use crate::items::Loaded;
use crate::noting::note;
use base_rows::Steps;
use desk_books::{DeskBooks, DeskChange};
use desk_model::{Command, Refusal};
use flow_table::FlowTable;
use frame_view::{Frame, view};
use mud_base::{Memory, Moment};
use packet_judge::Verdict;
use std::alloc::Global;
use std::marker::{Brand, Model};
use std::sync::ledger::{Blank, Ledger};

/// The books with what is compiled of them, the connections, and the moment of the session. Contracts
/// see all of these.
pub struct State {
    books: DeskBooks,
    flows: FlowTable,
    moment: Moment,
}

// It is written out, so that a crate that lets a desk go doesn't prove again how each part is dropped.
impl Drop for State {
    fn drop(self) {
        let State {
            books: _,
            flows: _,
            moment: _,
        } = self;
    }
}

impl Model for State {
    ghost use Rattle.mud_desk.specs.DeskState.{DeskState, IsTimely};

    ghost Value = { DeskState };

    ghost view = { λ s. record { books = s.books; flows = s.flows; moment = s.moment } };

    ghost invariant = { λ s. IsTimely s.flows s.moment };
}

/// A frame that was judged: the verdict on it, and what it was read as.
#[derive(Drop)]
pub struct JudgedFrame<'a> {
    pub verdict: Verdict,
    pub frame: Frame<'a>,
}

/// The later of two moments.
pub(crate) fn later(a: Moment, b: Moment) -> Moment
    ensures { result ≡ max a b }
{
    if a.seconds() < b.seconds() { b } else { a }
}

impl State {
    /// A session begins: nothing was forwarded in it, and its moment is that of the last change.
    #[tactic(auto, using(crate::proofs::Sessions::timely_new), unfolding(crate::specs::DeskState::tables_of, crate::specs::DeskState::session_of, desk_model::specs::Sessions::opened, desk_model::specs::Items::desk_of))]
    pub(crate) fn of(alloc: Global, taken: Loaded) -> Result<State, Memory>
        ensures { IfOk result (λ state. session_of state ≡ opened (loaded_desk taken)) }
    {
        let moment = taken.stamp.unwrap_or(Moment::at_most_last(0));
        let books = DeskBooks::of(alloc, taken.things, taken.files, taken.binds, taken.stamp)?;
        let flows = FlowTable::new(alloc);
        Ok(State {
            books,
            flows,
            moment,
        })
    }

    /// The books.
    pub(crate) fn books(&self) -> &DeskBooks
        ensures { result.now ≡ self.now.books }
    {
        &self.books
    }

    /// The moment of the session.
    pub fn moment(&self) -> Moment
        ensures { result ≡ self.now.moment }
    {
        self.moment
    }

    /// Makes this the moment of the session, where it isn't earlier.
    #[tactic(auto, using(crate::proofs::Sessions::timely_later))]
    pub(crate) fn raise(&mut self, now: Moment)
        requires { self.old.moment ≤ now }
        ensures { self.new ≡ record self.old { moment = now } }
    {
        self.moment = now;
    }

    /// Plans a command: [`DeskBooks::plan`].
    #[tactic(auto, unfolding(crate::specs::DeskState::tables_of))]
    pub(crate) fn plan<L: Ledger>(
        &mut self,
        command: Command,
        now: Moment,
        steps: &mut Steps<L>,
    ) -> Result<DeskChange, Refusal>
        requires { IsAsked command }
        ensures same { tables_of self.new ≡ tables_of self.old }
        ensures compiled { IsKept self.old.books.compiled self.new.books.compiled }
        ensures flows { self.new.flows ≡ self.old.flows }
        ensures moment { self.new.moment ≡ self.old.moment }
        ensures ok { IfOk result (λ change. IsOkAnd (command_step (tables_of self.old) now command) (λ after. IsPlanned after self.new.books change)) }
        ensures err { IfErr result (λ refusal. is_want_of_memory refusal ≡ false → command_step (tables_of self.old) now command ≡ Err refusal) }
        ensures steps { IsPaid (command_step (tables_of self.old) now command) self.old.books (steps.new - steps.old) }
        ensures read { OnOk result (IsRead (command_step (tables_of self.old) now command) self.old.books (steps.new - steps.old)) }
        ensures sound { IsSound (tables_of self.old) }
    {
        let _sound = self.books.compiled();
        self.books.plan(command, now, steps)
    }

    /// Makes a change that was planned, at a moment that isn't earlier: [`DeskBooks::commit`].
    #[tactic(auto, unfolding(crate::specs::DeskState::tables_of))]
    pub(crate) fn commit<L: Ledger>(
        &mut self,
        change: DeskChange,
        now: Moment,
        steps: &mut Steps<L>,
    )
        requires ready { IsReady self.old.books change }
        requires later { self.old.moment ≤ now }
        ensures desk { tables_of self.new ≡ desk_after change (tables_of self.old) }
        ensures flows { self.new.flows ≡ self.old.flows }
        ensures moment { self.new.moment ≡ now }
        ensures counted { steps.new ≡ steps.old + length change.rows.rows + length change.rows.bindings }
        ensures most { length change.rows.rows ≤ rows_apart self.old.books.compiled.rows self.new.books.compiled.rows }
    {
        self.books.commit(change, steps);
        self.moment = now;
    }

    /// What rules at a moment that isn't before that of the session: by the Things, by what is
    /// compiled, and by the local networks and the connections.
    fn rules_at(&self, now: Moment) -> DeskRules<'_>
        requires { self.now.moment ≤ now }
        ensures now { result.now ≡ now }
        ensures within { now < for_ever }
        ensures inputs { AreRuleInputsOf (tables_of self.now) (rule_inputs result.things.now.things result.compiled.now result.locals.now result.flows.now.history) }
        ensures compiled { result.compiled.now ≡ self.now.books.compiled }
        ensures history { result.flows.now.history ≡ self.now.flows.history }
    {
        let _seconds = now.seconds();
        DeskRules {
            things: self.books.thing_book(),
            compiled: self.books.compiled(),
            locals: self.books.locals(),
            flows: &self.flows,
            now,
        }
    }

    /// The verdict on a frame that was read, at the later of the session's moment and this one, which is
    /// made the moment of the session. A TCP packet with a ruling that is forwarded is noted for the
    /// connections, once. [`Memory`] comes only for such a packet, and leaves all as it was. The steps are
    /// those of the rulings: one for each endpoint of a packet that is a Thing and isn't held.
    #[tactic(auto, unfolding(crate::specs::DeskState::tables_of))]
    pub(crate) fn judge<L: Ledger>(
        &mut self,
        frame: &Frame<'_>,
        stamp: Moment,
        steps: &mut Steps<L>,
    ) -> Result<Verdict, Memory>
        ensures judged { (octets : List ℕ) → frame.now ≡ frame_of octets → AllowedVerdict (session_of self.old) stamp octets result (session_of self.new) }
        ensures books { self.new.books ≡ self.old.books }
        ensures least { steps.old + steps_on (rows_read self.old.books.compiled) (tables_of self.old).tables.things frame.now ≤ steps.new }
        ensures most { (b : ℕ) → length self.old.books.compiled.rows < 2 ^ b
            → steps.new ≤ steps.old + steps_on (ruling_steps self.old.books.compiled b) (tables_of self.old).tables.things frame.now }
    {
        let now = later(self.moment, stamp);
        let verdict = packet_judge::judge(frame, &self.rules_at(now), steps);
        note(&mut self.flows, frame, &verdict, now)?;
        self.moment = now;
        Ok(verdict)
    }

    /// [`State::judge`], whose steps are counted on this blank.
    fn judge_on<L: Ledger>(
        &mut self,
        frame: &Frame<'_>,
        stamp: Moment,
        blank: Blank,
    ) -> Result<Verdict, Memory>
        requires blank { IsBlankOf L.name L.parts blank }
        ensures judged { (octets : List ℕ) → frame.now ≡ frame_of octets → AllowedVerdict (session_of self.old) stamp octets result (session_of self.new) }
        ensures books { self.new.books ≡ self.old.books }
    {
        self.judge(frame, stamp, &mut Steps::<L>::new(blank))
    }

    /// The verdict on a frame, and what it was read as: [`State::judge`], whose steps nobody asks for.
    /// It stands where it is called, so that what was read isn't copied where nobody asks for that.
    #[inline(always)]
    pub fn judge_frame<'a>(
        &mut self,
        frame: &'a [u8],
        stamp: Moment,
    ) -> Result<JudgedFrame<'a>, Memory>
        ensures judged { IfOk result (λ judged. AllowedVerdict (session_of self.old) stamp frame.now (Ok judged.verdict) (session_of self.new)) }
        ensures wanting { IfErr result (λ memory. AllowedVerdict (session_of self.old) stamp frame.now (Err memory) (session_of self.new)) }
        ensures read { IfOk result (λ judged. judged.frame ≡ frame_of frame.now) }
        ensures books { self.new.books ≡ self.old.books }
    {
        let frame = view(frame);
        match self.judge_on::<Brand>(&frame, stamp, Blank::new(1)) {
            Ok(verdict) => Ok(JudgedFrame { verdict, frame }),
            Err(Memory) => Err(Memory),
        }
    }

    /// What decides a frame at the later of the session's moment and this one: the verdict that
    /// [`State::judge`] would give, and the Things, rulings and entries by which it is given. It takes
    /// no memory.
    #[tactic(auto, unfolding(crate::specs::DeskState::tables_of))]
    pub(crate) fn why<L: Ledger>(&self, frame: &[u8], stamp: Moment, blank: Blank) -> Findings<'_>
        requires blank { IsBlankOf L.name L.parts blank }
        ensures verdict { result.verdict ≡ verdict_in (session_of self.now) stamp frame.now }
        ensures found { AreFindingsOn (policy_at (tables_of self.now)) (tables_of self.now).tables.things (frame_of frame.now) result }
    {
        let mut steps = Steps::<L>::new(blank);
        let moment = later(self.moment, stamp);
        let view = view(frame);
        let rules = self.rules_at(moment);
        let verdict = packet_judge::judge(&view, &rules, &mut steps);
        findings_with(rules.things, rules.compiled, &view, verdict)
    }
}
