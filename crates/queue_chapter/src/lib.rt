// The calls that make, delete and find a queue, a chapter of the call table: `does` chooses the call by its kind, `queue` by its number, with the
// caller's test in front. (scope's specs/Step.antt and Calls.antt.)
#![tactic(auto, unfolding(scope::specs::Step::answered, scope::specs::Answers::plain, scope::specs::Answers::answer, answers::specs::Outcomes::answer_of, answers::specs::Outcomes::outcome))]

ghost use Rattle.std.specs.Prelude.{◌≡◌, ℕ, ◌<◌, ◌≤◌, List};
ghost use Rattle.scope.specs.Calls.{call_at};
ghost use Rattle.scope.specs.Step.{answered};
ghost use Rattle.rows.specs.Kinds.{queue_number};
ghost use Rattle.answers.specs.Outcomes.{answer_of, outcome_of};

use answers::Outcome;
use rows::{Call, QueueCall};
use scope::{Refusal, Request, State};

// What such a call does, on a state lent as one thing. Who may make it is tested before. A deletion writes the wake list itself.
pub fn does(
    s: &mut State,
    wakes: &mut [u32; 32],
    call: QueueCall,
    request: &Request,
) -> Result<Outcome, Refusal>
    ensures answer { (m : List ℕ) → answer_of s.new wakes.new (outcome_of s.old.running result)
        ≡ (call_at (queue_number call)).does s.old request.now.a request.now.b request.now.c request.now.d request.now.e m }
    ensures running { s.new.running ≡ s.old.running }
{
    match call {
        QueueCall::Create => {
            *wakes = [0; 32];
            queues::queue_create(s, request.a, request.b, request.c, request.d)
        }
        QueueCall::Delete => queues::queue_delete(s, wakes, request.a),
        QueueCall::Ident => {
            *wakes = [0; 32];
            queues::queue_ident(&*s, request.a)
        }
    }
}

// Such a call by its number: the caller's test, the call, and who runs after it, which is kept in the state. A refused caller wakes nobody.
pub fn queue(s: &mut State, wakes: &mut [u32; 32], request: &Request) -> Outcome
    requires { (20 ≤ request.now.call) × (request.now.call < 23) }
    ensures { ((m : List ℕ) → answer_of s.new wakes.new result
        ≡ answered s.old request.now.call request.now.mark request.now.a request.now.b request.now.c request.now.d request.now.e m)
        × (s.new.running ≡ result.runs) }
{
    let running = s.running;
    match chapters::allowed(request.call, request.mark, running) {
        Ok(Call::Queue(call)) => {
            let outcome = answers::outcome_of(does(s, wakes, call, request), running);
            s.running = outcome.runs;
            outcome
        }
        // Another chapter's calls have other numbers.
        Ok(_) => unreachable!(),
        Err(refusal) => {
            wakes.fill(0);
            answers::plain(refusal.number(), running)
        }
    }
}
