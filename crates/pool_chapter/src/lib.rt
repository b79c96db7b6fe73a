// The pool calls, a chapter of the call table: `does` chooses the call by its kind, `pool` by its number, with the caller's test in front.
// (scope's specs/Step.antt and Calls.antt.)
#![tactic(auto, unfolding(scope::specs::Step::answered, scope::specs::Answers::plain, scope::specs::Answers::answer, answers::specs::Outcomes::answer_of, answers::specs::Outcomes::outcome))]

ghost use Rattle.std.specs.Prelude.{◌≡◌, ℕ, ◌<◌, ◌≤◌, List};
ghost use Rattle.scope.specs.Calls.{call_at};
ghost use Rattle.scope.specs.Step.{answered};
ghost use Rattle.rows.specs.Kinds.{pool_number};
ghost use Rattle.answers.specs.Outcomes.{answer_of, outcome_of};

use answers::Outcome;
use rows::{Call, PoolCall};
use scope::{Refusal, Request, State};

// What a pool call does, on a state lent as one thing. Who may make it is tested before. It wakes nobody.
pub fn does(
    s: &mut State,
    wakes: &mut [u32; 32],
    call: PoolCall,
    request: &Request,
) -> Result<Outcome, Refusal>
    ensures answer { (m : List ℕ) → answer_of s.new wakes.new (outcome_of s.old.running result)
        ≡ (call_at (pool_number call)).does s.old request.now.a request.now.b request.now.c request.now.d request.now.e m }
    ensures running { s.new.running ≡ s.old.running }
{
    *wakes = [0; 32];
    match call {
        PoolCall::Create => pools::pool_create(
            s, request.a, request.b, request.c, request.d, request.e,
        ),
        PoolCall::Delete => pools::pool_delete(s, request.a),
        PoolCall::Ident => pools::pool_ident(&*s, request.a),
        PoolCall::GetBuff => pools::pool_get_buff(s, request.a),
        PoolCall::RetBuff => pools::pool_ret_buff(s, request.a, request.b),
        PoolCall::Info => pools::pool_info(&*s, request.a),
    }
}

// A pool call by its number: the caller's test, the call, and who runs after it, which is kept in the state. A refused caller wakes nobody.
pub fn pool(s: &mut State, wakes: &mut [u32; 32], request: &Request) -> Outcome
    requires { (14 ≤ request.now.call) × (request.now.call < 20) }
    ensures { ((m : List ℕ) → answer_of s.new wakes.new result
        ≡ answered s.old request.now.call request.now.mark request.now.a request.now.b request.now.c request.now.d request.now.e m)
        × (s.new.running ≡ result.runs) }
{
    let running = s.running;
    match chapters::allowed(request.call, request.mark, running) {
        Ok(Call::Pool(call)) => {
            let outcome = answers::outcome_of(does(s, wakes, call, request), running);
            s.running = outcome.runs;
            outcome
        }
        // Another chapter's calls have other numbers.
        Ok(_) => unreachable!(),
        Err(refusal) => {
            wakes.fill(0);
            answers::plain(refusal.number(), running)
        }
    }
}
