// The semaphore calls, a chapter of the call table: `does` chooses the call by its kind, `sem` by its number, with the caller's test in front.
// (scope's specs/Step.antt and Calls.antt.)
#![tactic(auto, unfolding(scope::specs::Step::answered, scope::specs::Answers::plain, scope::specs::Answers::answer, answers::specs::Outcomes::answer_of, answers::specs::Outcomes::outcome))]

ghost use Rattle.std.specs.Prelude.{◌≡◌, ℕ, ◌<◌, ◌≤◌, List};
ghost use Rattle.scope.specs.Calls.{call_at};
ghost use Rattle.scope.specs.Step.{answered};
ghost use Rattle.answers.specs.Outcomes.{answer_of, outcome_of};
ghost use Rattle.rows.specs.Kinds.{semaphore_number};

use answers::Outcome;
use rows::{Call, SemaphoreCall};
use scope::{Refusal, Request, State};

// What a semaphore call does, on a state lent as one thing. Who may make it is tested before.
pub fn does(
    s: &mut State,
    wakes: &mut [u32; 32],
    call: SemaphoreCall,
    request: &Request,
) -> Result<Outcome, Refusal>
    ensures answer { (m : List ℕ) → answer_of s.new wakes.new (outcome_of s.old.running result)
        ≡ (call_at (semaphore_number call)).does s.old request.now.a request.now.b request.now.c request.now.d request.now.e m }
    ensures running { s.new.running ≡ s.old.running }
{
    match call {
        SemaphoreCall::Create => {
            *wakes = [0; 32];
            semaphores::sem_create(s, request.a, request.b, request.c)
        }
        SemaphoreCall::Delete => semaphores::sem_delete(s, wakes, request.a),
        SemaphoreCall::Ident => {
            *wakes = [0; 32];
            semaphores::sem_ident(s, request.a)
        }
        SemaphoreCall::Claim => {
            *wakes = [0; 32];
            semaphores::sem_claim(s, request.a, request.b, request.c)
        }
        SemaphoreCall::Release => semaphores::sem_release(s, wakes, request.a),
        SemaphoreCall::Info => {
            *wakes = [0; 32];
            semaphores::sem_info(s, request.a)
        }
    }
}

// A semaphore call by its number: the caller's test, the call, and who runs after it, which is kept in the state. A refused caller wakes nobody.
pub fn sem(s: &mut State, wakes: &mut [u32; 32], request: &Request) -> Outcome
    requires { (8 ≤ request.now.call) × (request.now.call < 14) }
    ensures { ((m : List ℕ) → answer_of s.new wakes.new result
        ≡ answered s.old request.now.call request.now.mark request.now.a request.now.b request.now.c request.now.d request.now.e m)
        × (s.new.running ≡ result.runs) }
{
    let running = s.running;
    match chapters::allowed(request.call, request.mark, running) {
        Ok(Call::Semaphore(call)) => {
            let outcome = answers::outcome_of(does(s, wakes, call, request), running);
            s.running = outcome.runs;
            outcome
        }
        // Another chapter's calls have other numbers.
        Ok(_) => unreachable!(),
        Err(refusal) => {
            wakes.fill(0);
            answers::plain(refusal.number(), running)
        }
    }
}
