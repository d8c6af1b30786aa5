//! The desk, and the keeper that it keeps its lists in.
ghost use Rattle.std.specs.Prelude.{◌≡◌, ◌⊎◌, ℕ, ◌+◌, ◌-◌, ◌^◌, ◌<◌, ◌≤◌, max, List, Ok, Err, IfOk, IfErr, length};
ghost use Rattle.base_rows.specs.Ledgers.{IsBlankOf};
ghost use Rattle.mud_world.specs.declared.item.Item.{Item};
ghost use Rattle.mud_world.specs.Kept.{faults_of, Tells, kept_items, Rests};
ghost use Rattle.mud_world.specs.Causes.{Counts};
ghost use Rattle.table_model.specs.Things.{thing_at};
ghost use Rattle.frame_view.specs.Frame.{frame_of};
ghost use Rattle.packet_judge.specs.Verdicts.{steps_on};
ghost use Rattle.desk_model.specs.DeskTables.{IsSound};
ghost use Rattle.desk_model.specs.Commands.{IsAsked, command_step};
ghost use Rattle.desk_model.specs.Items.{none_kept};
ghost use Rattle.desk_model.specs.Keeping.{KeepsDesk, KeepsSame};
ghost use Rattle.desk_model.specs.Sessions as sessions;
ghost use Rattle.desk_model.specs.Sessions.{AllowedReply, AllowedVerdict, verdict_in, is_of_keeper};
ghost use Rattle.desk_model.specs.Verdicts.{policy_at};
ghost use Rattle.desk_books.specs.CompiledDesk.{IsCompiledOf};
ghost use Rattle.mud_desk.specs.Items.Loaded.{kept_of};
ghost use Rattle.mud_desk.specs.Items.Opening.{IsFaultOf};
ghost use Rattle.mud_desk.specs.RuleInputs.{rows_read, ruling_steps};
ghost use Rattle.mud_desk.specs.Findings.{AreFindingsOn};
ghost use Rattle.mud_desk.specs.DeskState.{tables_of, session_of, AreRulesOf};
ghost use Rattle.desk_model.specs.Kept.{AreItemsAfter, IsKept};
ghost use Rattle.mud_desk.specs.Stays.{StaysKept};
ghost use Rattle.mud_desk.specs.Answers.{is_fault_of_keeper, StaysUnlessDone, IsLeft, IsPaidOnce, IsReadOnce};

use crate::Findings;
use crate::items::{Loaded, OpenFault, open_items};
use crate::keeping::keep_batch;
use crate::state::{JudgedFrame, State, later};
use acl_rows::RuleView;
use base_rows::Steps;
use desk_model::types::command_fits;
use desk_model::{Command, Reply};
use frame_view::view;
use mud_base::{Direction, Mac, Memory, Moment, Prefix};
use mud_world::{KeepFault, Keeper};
use packet_judge::Verdict;
use std::alloc::Global;
use std::marker::Brand;
use std::sync::ledger::{Blank, Ledger};
use table_model::{ClassRow, NameRow, Thing};
use usage_tables::CachedFile;

/// The manager's lists and what is compiled of them, the connections that were forwarded, the moment
/// of the session, and the keeper in which the lists are kept.
pub struct Desk<K: Keeper> {
    keeper: K,
    state: State,
}

// It is written out, so that a crate that lets a desk go doesn't prove again how each part is dropped.
impl<K: Keeper> Drop for Desk<K> {
    fn drop(self) {
        let Desk {
            keeper: _,
            state: _,
        } = self;
    }
}

impl<K: Keeper> Desk<K> {
    /// Opens a keeper: the desk has the lists that its items are, and a session begins. Where an item
    /// is no record, the first one in the keeper's order is named, and nothing was written. Each
    /// Thing whose record is of the first version is written anew in the second; the lists and the
    /// moment of their last change stay. A refusal hands the keeper back. Nothing was taken before:
    /// [`Loaded::new`].
    #[tactic(auto, using(crate::proofs::Opening::left_of))]
    pub fn open(alloc: Global, keeper: K, nothing: Loaded) -> Result<Desk<K>, (OpenFault, K)>
        requires { kept_of nothing ≡ none_kept }
        // The desk's lists are those that the keeper's items kept before, and are kept now.
        ensures tables { Tells ⟦<K as Keeper>⟧ keeper → IfOk result (λ desk. Tells ⟦<K as Keeper>⟧ desk.keeper
            → KeepsDesk (kept_items ⟦<K as Keeper>⟧ keeper) (tables_of desk.state)) }
        ensures told { IfOk result (λ desk. Tells ⟦<K as Keeper>⟧ desk.keeper → Tells ⟦<K as Keeper>⟧ keeper) }
        ensures sound { IfOk result (λ desk. IsSound (tables_of desk.state)) }
        ensures rests { IfOk result (λ desk. Rests ⟦<K as Keeper>⟧ desk.keeper) }
        ensures kept { IfOk result (λ desk. IsKept ⟦<K as Keeper>⟧ desk.keeper (tables_of desk.state)) }
        ensures begun { IfOk result (λ desk. session_of desk.state ≡ sessions.opened (tables_of desk.state)) }
        ensures steady { IfOk result (λ desk. faults_of ⟦<K as Keeper>⟧ desk.keeper ≡ faults_of ⟦<K as Keeper>⟧ keeper) }
        // An item is named where it is the first that is no record, and else the desk isn't opened for a
        // failure of the keeper or for want of memory.
        ensures bad { IfErr result (λ refusal. Tells ⟦<K as Keeper>⟧ refusal.1
            → IsFaultOf (kept_items ⟦<K as Keeper>⟧ refusal.1) refusal.0) }
        ensures left { Tells ⟦<K as Keeper>⟧ keeper → IfErr result (λ refusal. Tells ⟦<K as Keeper>⟧ refusal.1
            → IsLeft (kept_items ⟦<K as Keeper>⟧ keeper) (kept_items ⟦<K as Keeper>⟧ refusal.1) refusal.0) }
        ensures untold { IfErr result (λ refusal. Tells ⟦<K as Keeper>⟧ refusal.1 → Tells ⟦<K as Keeper>⟧ keeper) }
        ensures crash { Tells ⟦<K as Keeper>⟧ keeper → IfErr result (λ refusal. (list : List Item) → K.left refusal.1 list
            → K.left keeper list ⊎ KeepsSame (kept_items ⟦<K as Keeper>⟧ keeper) list) }
        ensures cause { IfErr result (λ refusal. Counts (is_fault_of_keeper refusal.0) (faults_of ⟦<K as Keeper>⟧ keeper) (faults_of ⟦<K as Keeper>⟧ refusal.1)) }
    {
        let mut keeper = keeper;
        let taken = match open_items(alloc, &mut keeper, nothing) {
            Ok(taken) => taken,
            Err(fault) => return Err((fault, keeper)),
        };
        match State::of(alloc, taken) {
            Ok(state) => Ok(Desk { keeper, state }),
            Err(Memory) => Err((OpenFault::Memory, keeper)),
        }
    }

    /// Hands the keeper back, with its items as they are.
    pub fn close(self) -> K
        requires { IsKept ⟦<K as Keeper>⟧ self.keeper (tables_of self.state) }
        ensures { result ≡ self.keeper }
    {
        let Desk { keeper, state } = self;
        drop(state);
        keeper
    }

    /// Hands the keeper back, as [`Desk::close`] does, and beside it all else that the desk holds: by it
    /// the session goes on, and judges, while nothing is kept.
    pub fn into_parts(self) -> (K, State)
        requires { IsKept ⟦<K as Keeper>⟧ self.keeper (tables_of self.state) }
        ensures keeper { result.0 ≡ self.keeper }
        ensures state { result.1 ≡ self.state }
    {
        let Desk { keeper, state } = self;
        (keeper, state)
    }

    /// The lists are sound, whatever was asked of the desk.
    #[tactic(auto, unfolding(crate::specs::DeskState::tables_of))]
    pub fn lists_are_sound(&self)
        ensures { IsSound (tables_of self.now.state) }
    {
        let _compiled = self.state.books().compiled();
    }

    /// A command, at the later of the session's moment and this one. What it changes is kept by one
    /// batch, with the moment of the change, before it is made; where nothing changes the keeper
    /// isn't called. `Done` makes that the moment of the session; after any other reply all is as it
    /// was. A class by URI that is bound has 1 to 255 octets from 21 to 7E hex; a stated lease is for
    /// at least a second; a name that is observed is a host name in lower case, for 1 to
    /// 2,147,483,647 seconds.
    pub fn command<L: Ledger>(
        &mut self,
        command: Command,
        now: Moment,
        steps: &mut Steps<L>,
    ) -> Reply
        requires kept { IsKept ⟦<K as Keeper>⟧ self.old.keeper (tables_of self.old.state) }
        requires asked { IsAsked command }
        ensures answer { AllowedReply (session_of self.old.state) now command result (session_of self.new.state) }
        ensures stays { StaysKept ⟦<K as Keeper>⟧ self.old self.new }
        // A crash behind it leaves what it could leave before, or the items of the lists that the command leads to.
        ensures crash { (list : List Item) → K.left self.new.keeper list → K.left self.old.keeper list
            ⊎ AreItemsAfter (command_step (tables_of self.old.state) (max self.old.state.moment now) command) list }
        // What is compiled of the lists isn't made anew for a refusal, a failure of the keeper or want of memory.
        ensures compiled { StaysUnlessDone result self.old.state.books.compiled self.new.state.books.compiled }
        ensures cause { Counts (is_of_keeper result) (faults_of ⟦<K as Keeper>⟧ self.old.keeper) (faults_of ⟦<K as Keeper>⟧ self.new.keeper) }
        ensures steps { IsPaidOnce (command_step (tables_of self.old.state) (max self.old.state.moment now) command) self.old.state.books self.new.state.books steps.old steps.new }
        ensures least { IsReadOnce result (command_step (tables_of self.old.state) (max self.old.state.moment now) command) self.old.state.books (steps.new - steps.old) }
    {
        command_fits(&command);
        let now = later(self.state.moment(), now);
        let change = match self.state.plan(command, now, steps) {
            Ok(change) => change,
            Err(refusal) => return refusal.into_reply(),
        };
        match keep_batch(&mut self.keeper, change.batch()) {
            Ok(()) => (),
            Err(KeepFault::Failed) => {
                drop(change);
                return Reply::Keeper;
            }
            Err(KeepFault::Memory) => {
                drop(change);
                return Reply::Memory;
            }
        }
        let outcome = change.outcome();
        self.state.commit(change, now, steps);
        Reply::Done(outcome)
    }

    /// [`Desk::command`], whose steps are counted on this blank.
    fn execute_on<L: Ledger>(&mut self, command: Command, now: Moment, blank: Blank) -> Reply
        requires blank { IsBlankOf L.name L.parts blank }
        requires kept { IsKept ⟦<K as Keeper>⟧ self.old.keeper (tables_of self.old.state) }
        requires asked { IsAsked command }
        ensures answer { AllowedReply (session_of self.old.state) now command result (session_of self.new.state) }
        ensures stays { StaysKept ⟦<K as Keeper>⟧ self.old self.new }
        ensures crash { (list : List Item) → K.left self.new.keeper list → K.left self.old.keeper list
            ⊎ AreItemsAfter (command_step (tables_of self.old.state) (max self.old.state.moment now) command) list }
        ensures compiled { StaysUnlessDone result self.old.state.books.compiled self.new.state.books.compiled }
        ensures cause { Counts (is_of_keeper result) (faults_of ⟦<K as Keeper>⟧ self.old.keeper) (faults_of ⟦<K as Keeper>⟧ self.new.keeper) }
    {
        self.command(command, now, &mut Steps::<L>::new(blank))
    }

    /// A command: [`Desk::command`], whose steps nobody asks for.
    pub fn execute(&mut self, command: Command, now: Moment) -> Reply
        requires kept { IsKept ⟦<K as Keeper>⟧ self.old.keeper (tables_of self.old.state) }
        requires asked { IsAsked command }
        ensures answer { AllowedReply (session_of self.old.state) now command result (session_of self.new.state) }
        ensures stays { StaysKept ⟦<K as Keeper>⟧ self.old self.new }
        ensures crash { (list : List Item) → K.left self.new.keeper list → K.left self.old.keeper list
            ⊎ AreItemsAfter (command_step (tables_of self.old.state) (max self.old.state.moment now) command) list }
        ensures compiled { StaysUnlessDone result self.old.state.books.compiled self.new.state.books.compiled }
        ensures cause { Counts (is_of_keeper result) (faults_of ⟦<K as Keeper>⟧ self.old.keeper) (faults_of ⟦<K as Keeper>⟧ self.new.keeper) }
    {
        self.execute_on::<Brand>(command, now, Blank::new(1))
    }

    /// The verdict on a frame, at the later of the session's moment and this one, which is made the
    /// moment of the session. A TCP packet of a Thing that is forwarded counts for the connections
    /// from then on, once. [`Memory`] comes only for such a packet, and leaves all as it was.
    pub fn judge<L: Ledger>(
        &mut self,
        frame: &[u8],
        stamp: Moment,
        steps: &mut Steps<L>,
    ) -> Result<Verdict, Memory>
        requires kept { IsKept ⟦<K as Keeper>⟧ self.old.keeper (tables_of self.old.state) }
        ensures stays { StaysKept ⟦<K as Keeper>⟧ self.old self.new }
        ensures judged { AllowedVerdict (session_of self.old.state) stamp frame.now result (session_of self.new.state) }
        ensures books { self.new.state.books ≡ self.old.state.books }
        ensures keeper { self.new.keeper ≡ self.old.keeper }
        // Each ruling reads at least the rows that the Thing's file has of the peer,
        ensures least { steps.old + steps_on (rows_read self.old.state.books.compiled) (tables_of self.old.state).tables.things (frame_of frame.now) ≤ steps.new }
        // and no more than these, the rows of the peer that the defaults have, the binary digits of
        // the number of all rows, twice, and the wide entries.
        ensures most { (b : ℕ) → length self.old.state.books.compiled.rows < 2 ^ b
            → steps.new ≤ steps.old + steps_on (ruling_steps self.old.state.books.compiled b) (tables_of self.old.state).tables.things (frame_of frame.now) }
    {
        self.state.judge(&view(frame), stamp, steps)
    }

    /// The verdict on a frame, and what it was read as: [`Desk::judge`], whose steps nobody asks for.
    pub fn judge_frame<'a>(
        &mut self,
        frame: &'a [u8],
        stamp: Moment,
    ) -> Result<JudgedFrame<'a>, Memory>
        requires kept { IsKept ⟦<K as Keeper>⟧ self.old.keeper (tables_of self.old.state) }
        ensures stays { StaysKept ⟦<K as Keeper>⟧ self.old self.new }
        ensures judged { IfOk result (λ judged. AllowedVerdict (session_of self.old.state) stamp frame.now (Ok judged.verdict) (session_of self.new.state)) }
        ensures wanting { IfErr result (λ memory. AllowedVerdict (session_of self.old.state) stamp frame.now (Err memory) (session_of self.new.state)) }
        ensures read { IfOk result (λ judged. judged.frame ≡ frame_of frame.now) }
        ensures books { self.new.state.books ≡ self.old.state.books }
        ensures keeper { self.new.keeper ≡ self.old.keeper }
    {
        self.state.judge_frame(frame, stamp)
    }

    /// What decides a frame: the verdict that [`Desk::judge`] would give, and the Things, rulings and
    /// entries by which it is given, with nothing changed. It takes no memory.
    pub fn why(&self, frame: &[u8], stamp: Moment) -> Findings<'_>
        ensures verdict { result.verdict ≡ verdict_in (session_of self.now.state) stamp frame.now }
        // At each endpoint these are the Thing of the desk, the ruling of the verdict, and the
        // entry of its number in the Thing's approved file.
        ensures found { AreFindingsOn (policy_at (tables_of self.now.state)) (tables_of self.now.state).tables.things (frame_of frame.now) result }
    {
        self.state.why::<Brand>(frame, stamp, Blank::new(1))
    }

    /// What a ruling on packets with the Thing of this hardware address on this side reads; None
    /// exactly where no Thing has it.
    #[tactic(auto, unfolding(crate::specs::DeskState::tables_of))]
    pub fn rules(&self, mac: Mac, side: Direction) -> Option<RuleView<'_>>
        ensures rules { AreRulesOf self.now.state side (thing_at mac (tables_of self.now.state).tables.things) result }
        // The policies, bindings and rows are those of the lists.
        ensures compiled { IsCompiledOf (tables_of self.now.state) self.now.state.books.compiled }
    {
        let books = self.state.books();
        let _compiled = books.compiled();
        match books.thing_at(mac) {
            Some(thing) => Some(books.view(&thing.url, side)),
            None => None,
        }
    }

    /// Makes the later of the session's moment and this one the moment of the session, and answers
    /// it.
    pub fn raise(&mut self, now: Moment) -> Moment
        requires kept { IsKept ⟦<K as Keeper>⟧ self.old.keeper (tables_of self.old.state) }
        ensures stays { StaysKept ⟦<K as Keeper>⟧ self.old self.new }
        ensures moment { result ≡ max self.old.state.moment now }
        ensures state { self.new.state ≡ record self.old.state { moment = result } }
        ensures keeper { self.new.keeper ≡ self.old.keeper }
    {
        let moment = later(self.state.moment(), now);
        self.state.raise(moment);
        moment
    }

    /// The moment of the session.
    pub fn moment(&self) -> Moment
        ensures { result ≡ self.now.state.moment }
    {
        self.state.moment()
    }

    /// The moment of the last change that was kept; None where there was none.
    #[tactic(auto, unfolding(crate::specs::DeskState::tables_of))]
    pub fn stamp(&self) -> Option<Moment>
        ensures { result ≡ (tables_of self.now.state).stamp }
    {
        self.state.books().stamp()
    }

    /// The Things, in the order of their hardware addresses.
    #[tactic(auto, unfolding(crate::specs::DeskState::tables_of))]
    pub fn things(&self) -> &[Thing]
        ensures { result.now ≡ (tables_of self.now.state).tables.things }
    {
        self.state.books().things()
    }

    /// The usage files that are held, in the order of their URLs.
    #[tactic(auto, unfolding(crate::specs::DeskState::tables_of))]
    pub fn files(&self) -> &[CachedFile]
        ensures { result.now ≡ (tables_of self.now.state).files }
    {
        self.state.books().files()
    }

    /// The classes: those by URI, and then those by MUD URL, in the order of their texts.
    #[tactic(auto, unfolding(crate::specs::DeskState::tables_of))]
    pub fn classes(&self) -> &[ClassRow]
        ensures { result.now ≡ (tables_of self.now.state).tables.classes }
    {
        self.state.books().classes()
    }

    /// The local networks, in order, each once.
    #[tactic(auto, unfolding(crate::specs::DeskState::tables_of))]
    pub fn locals(&self) -> &[Prefix]
        ensures { result.now ≡ (tables_of self.now.state).tables.locals }
    {
        self.state.books().locals()
    }

    /// The names, in the order of their octets.
    #[tactic(auto, unfolding(crate::specs::DeskState::tables_of))]
    pub fn names(&self) -> &[NameRow]
        ensures { result.now ≡ (tables_of self.now.state).tables.names }
    {
        self.state.books().names()
    }
}
