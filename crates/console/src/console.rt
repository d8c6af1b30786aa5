//! A desk, the answer that it gives and a clock, as what answers the requests of connections.
ghost use Rattle.std.specs.Prelude.{◌≡◌, ◌++◌};
ghost use Rattle.console.specs.States.{TakesMoment};

use crate::{Answer, answer_request};
use http_requests::{RequestFault, RequestParts, Service};
use mud_base::Moment;
use mud_desk::Desk;
use mud_world::{Clock, Keeper};
use std::alloc::Global;

/// The moment at which a request is taken: its own, and the clock's next one where it gives none.
fn moment_for<C: Clock>(request: &RequestParts<'_>, clock: &mut C) -> Moment
    ensures { TakesMoment C.tells request.now.moment result (C.moments clock.old) (C.moments clock.new) }
{
    match request.moment {
        Some(own) => own,
        None => clock.now(),
    }
}

/// A desk that answers requests, its last answer, and the clock by which requests are taken that
/// give no moment. The clock is lent.
pub struct Console<'a, K: Keeper, C: Clock> {
    /// What memory is asked of.
    pub alloc: Global,
    /// The desk.
    pub desk: Desk<K>,
    /// The last answer.
    pub answer: Answer,
    /// The clock.
    pub clock: &'a mut C,
}

impl<K: Keeper, C: Clock> Service for Console<'_, K, C> {
    ghost use Rattle.std.specs.Prelude.{◌≡◌, ℕ, ◌++◌};
    ghost use Rattle.desk_model.specs.Kept.{IsKept};
    ghost use Rattle.mud_desk.specs.DeskState.{tables_of};
    ghost use Rattle.console.specs.Answers.{fault_answer};
    ghost use Rattle.console.specs.States.{ConsoleState, ConsoleStep, IsAt};
    ghost use Rattle.console.specs.Beside.{StepBeside};

    ghost ready = { λ it. IsKept ⟦<K as Keeper>⟧ it.desk.keeper (tables_of it.desk.state) };

    ghost State = { ConsoleState × Self };

    ghost keeps = { λ it s. IsAt C.tells it.desk.state (C.moments it.clock.now)
        (K.faults s.1.desk.keeper)
        (K.faults it.desk.keeper) s.0
        × (K.tells it.desk.keeper
        → K.tells s.1.desk.keeper)
        × (it.clock.ghost_name ≡ s.1.clock.ghost_name) };

    ghost may = { StepBeside (ConsoleStep C.tells) };

    ghost refusal = { fault_answer };

    ghost held = { λ it. it.answer };

    fn carry_out(&mut self, request: &RequestParts<'_>, is_last: bool) {
        let given = moment_for(request, self.clock);
        answer_request(
            self.alloc,
            &mut self.desk,
            &mut self.answer,
            request,
            given,
            is_last,
        );
    }

    fn refuse(&mut self, fault: RequestFault) {
        self.answer.refuse(fault);
    }

    fn answer(&self) -> (&[u8], &[u8]) {
        self.answer.pieces()
    }
}
