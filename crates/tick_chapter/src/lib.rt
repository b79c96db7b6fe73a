// The tick, a chapter of the call table: `does` is the call, `tick` has the caller's test in front. (scope's specs/Step.antt and Calls.antt.)
#![tactic(auto, unfolding(scope::specs::Step::answered, scope::specs::Answers::plain, scope::specs::Answers::answer, answers::specs::Outcomes::answer_of, answers::specs::Outcomes::outcome))]

ghost use Rattle.std.specs.Prelude.{◌≡◌, ℕ, List};
ghost use Rattle.scope.specs.Calls.{call_at};
ghost use Rattle.scope.specs.Step.{answered};
ghost use Rattle.answers.specs.Outcomes.{answer_of};

use answers::Outcome;
use scope::{Request, State};

// What the tick does, on a state lent as one thing. Who may make it is tested before; nothing else refuses it.
pub fn does(s: &mut State, wakes: &mut [u32; 32]) -> Outcome
    ensures answer { (a b c d e : ℕ) (m : List ℕ) → answer_of s.new wakes.new result ≡ (call_at 0).does s.old a b c d e m }
    ensures running { s.new.running ≡ s.old.running }
{
    ticks::tick(s, wakes)
}

// The tick by its number: the caller's test, the call, and who runs after it, which is kept in the state. A refused caller wakes nobody.
pub fn tick(s: &mut State, wakes: &mut [u32; 32], request: &Request) -> Outcome
    requires { request.now.call ≡ 0 }
    ensures { ((m : List ℕ) → answer_of s.new wakes.new result
        ≡ answered s.old request.now.call request.now.mark request.now.a request.now.b request.now.c request.now.d request.now.e m)
        × (s.new.running ≡ result.runs) }
{
    match chapters::allowed(request.call, request.mark, s.running) {
        Ok(_) => {
            let outcome = does(s, wakes);
            s.running = outcome.runs;
            outcome
        }
        Err(refusal) => {
            wakes.fill(0);
            answers::plain(refusal.number(), s.running)
        }
    }
}
