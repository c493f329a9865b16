ghost use Rattle.run.specs.Runs.{Does};
ghost use Rattle.tally.specs.declared.calls.Call.TheVariants as call;

use host::host::Host;
use order::order::Order;
use run::run::Run;
use store::Store;
use tally::answers::Answer;
use tally::calls::Call;

/// Makes one call, and gives the run back with its answer.
pub fn make<S: Store, H: Host, O: Order>(run: Run<S, H, O>, call: Call) -> (Run<S, H, O>, Answer)
    ensures does { Does S.Store H.Host O.Order run call result.0 result.1 }
{
    let mut run = run;
    match call {
        Call::HandIn { kind, values } => {
            let id = run.hand_in(kind, values);
            (run, Answer::HandIn(id))
        }
        Call::Read(id) => {
            let fact = run.read(id);
            (run, Answer::Read(fact))
        }
        Call::Look => {
            let sight = run.look();
            (run, Answer::Look(sight))
        }
        Call::Step => {
            let stepped = run.step();
            (run, Answer::Step(stepped))
        }
        Call::Run(n) => {
            let ran = run.run(n);
            (run, Answer::Run(ran))
        }
        Call::ChooseAndFire => choose_and_fire(run),
        Call::ChooseAndLayAside => choose_and_lay_aside(run),
    }
}

fn choose_and_fire<S: Store, H: Host, O: Order>(run: Run<S, H, O>) -> (Run<S, H, O>, Answer)
    ensures does { Does S.Store H.Host O.Order run call.ChooseAndFire result.0 result.1 }
{
    let chosen = run.choose();
    let held = chosen.held();
    let (run, stepped) = chosen.fire();
    (run, Answer::ChooseAndFire { held, stepped })
}

fn choose_and_lay_aside<S: Store, H: Host, O: Order>(run: Run<S, H, O>) -> (Run<S, H, O>, Answer)
    ensures does { Does S.Store H.Host O.Order run call.ChooseAndLayAside result.0 result.1 }
{
    let chosen = run.choose();
    let held = chosen.held();
    let run = chosen.lay_aside();
    (run, Answer::ChooseAndLayAside { held })
}
