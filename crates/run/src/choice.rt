ghost use Rattle.std.specs.Prelude.{◌≡◌};
ghost use Rattle.meaning.specs.Calls.{look_answer};
ghost use Rattle.tally.specs.declared.answers.Answer.TheVariants as answer;
ghost use Rattle.tally.specs.declared.calls.Call.TheVariants as call;
ghost use Rattle.run.specs.Runs.{setup, state, Standing, Does, Holds};

use crate::chosen::Chosen;
use crate::run::Run;
use host::host::Host;
use meaning::answers::{Sight, Stepped};
use meaning::refusal::Refusal;
use meaning::roll::Firing;
use order::order::Order;
use store::Store;

impl<S: Store, H: Host, O: Order> Run<S, H, O> {
    /// Moves the run into a chosen run, which holds what look would answer. It always succeeds, on a
    /// failed run too.
    pub fn choose(self) -> Chosen<S, H, O>
        ensures run { result.run ≡ self }
        ensures holds { Standing S.Store self → Holds S.Store H.Host O.Order result }
    {
        let held = self.look();
        Chosen { run: self, held }
    }

    // Does what a step does, with what look has answered.
    fn carry_out(&mut self, held: Result<Sight, Refusal>) -> Result<Stepped, Refusal>
        ensures same { setup S.Store H.Host O.Order self.new ≡ setup S.Store H.Host O.Order self.old }
        ensures does { held ≡ look_answer (setup S.Store H.Host O.Order self.old) (state S.Store self.old) → Does S.Store H.Host O.Order self.old call.Step self.new (answer.Step result) }
    {
        match held? {
            Sight::Final => Ok(Stepped::Final),
            Sight::Due {
                rule,
                ids,
                refusal: _,
            } => self.fire(Firing { rule, ids }),
        }
    }
}

impl<S: Store, H: Host, O: Order> Chosen<S, H, O> {
    /// What the chosen run holds: what look answered.
    pub fn held(&self) -> Result<Sight, Refusal>
        ensures value { result ≡ self.now.held }
    {
        self.held
    }

    /// Fires what is held, as a step would, and gives the run back with what the step answers.
    pub fn fire(self) -> (Run<S, H, O>, Result<Stepped, Refusal>)
        ensures same { setup S.Store H.Host O.Order result.0 ≡ setup S.Store H.Host O.Order self.run }
        ensures does { Holds S.Store H.Host O.Order self → Does S.Store H.Host O.Order self.run call.ChooseAndFire result.0 (answer.ChooseAndFire self.held result.1) }
    {
        let Chosen { mut run, held } = self;
        let stepped = run.carry_out(held);
        (run, stepped)
    }

    /// Gives the run back untouched.
    pub fn lay_aside(self) -> Run<S, H, O>
        ensures run { result ≡ self.run }
        ensures does { Holds S.Store H.Host O.Order self → Does S.Store H.Host O.Order self.run call.ChooseAndLayAside result (answer.ChooseAndLayAside self.held) }
    {
        let Chosen { run, held: _ } = self;
        run
    }
}
