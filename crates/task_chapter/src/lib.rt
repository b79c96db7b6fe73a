// The task calls, a chapter of the call table: `does` chooses the call by its kind, `task` by its number, with the caller's test in front.
// (scope's specs/Step.antt and Calls.antt.)
#![tactic(auto, unfolding(scope::specs::Step::answered, scope::specs::Answers::plain, scope::specs::Answers::answer, answers::specs::Outcomes::answer_of, answers::specs::Outcomes::outcome))]

ghost use Rattle.std.specs.Prelude.{◌≡◌, ℕ, ◌<◌, ◌≤◌, List};
ghost use Rattle.scope.specs.Calls.{call_at};
ghost use Rattle.scope.specs.Step.{answered};
ghost use Rattle.rows.specs.Kinds.{task_number};
ghost use Rattle.answers.specs.Outcomes.{answer_of, outcome_of};

use answers::Outcome;
use rows::{Call, TaskCall};
use scope::{Refusal, Request, State};

// What a task call does, on a state lent as one thing. Who may make it is tested before. None of them wakes a task.
pub fn does(
    s: &mut State,
    wakes: &mut [u32; 32],
    call: TaskCall,
    request: &Request,
) -> Result<Outcome, Refusal>
    ensures answer { (m : List ℕ) → answer_of s.new wakes.new (outcome_of s.old.running result)
        ≡ (call_at (task_number call)).does s.old request.now.a request.now.b request.now.c request.now.d request.now.e m }
    ensures running { s.new.running ≡ s.old.running }
{
    *wakes = [0; 32];
    match call {
        TaskCall::Create => tasks::task_create(s, request.a, request.b),
        TaskCall::Delete => tasks::task_delete(s, request.a),
        TaskCall::Ident => tasks::task_ident(&*s, request.a),
        TaskCall::Start => tasks::task_start(s, request.a),
        TaskCall::Suspend => tasks::task_suspend(s, request.a),
        TaskCall::Resume => tasks::task_resume(s, request.a),
        TaskCall::SetPriority => tasks::task_set_priority(s, request.a, request.b),
    }
}

// A task call by its number: the caller's test, the call, and who runs after it, which is kept in the state. A refused caller wakes nobody.
pub fn task(s: &mut State, wakes: &mut [u32; 32], request: &Request) -> Outcome
    requires { (1 ≤ request.now.call) × (request.now.call < 8) }
    ensures { ((m : List ℕ) → answer_of s.new wakes.new result
        ≡ answered s.old request.now.call request.now.mark request.now.a request.now.b request.now.c request.now.d request.now.e m)
        × (s.new.running ≡ result.runs) }
{
    let running = s.running;
    match chapters::allowed(request.call, request.mark, running) {
        Ok(Call::Task(call)) => {
            let outcome = answers::outcome_of(does(s, wakes, call, request), running);
            s.running = outcome.runs;
            outcome
        }
        // Another chapter's calls have other numbers.
        Ok(_) => unreachable!(),
        Err(refusal) => {
            wakes.fill(0);
            answers::plain(refusal.number(), running)
        }
    }
}
