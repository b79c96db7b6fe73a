// The receives, a chapter of the call table: `does` chooses the call by its kind, `receive` by its number, with the caller's test in front.
// (scope's specs/Step.antt and Calls.antt.)
#![tactic(auto, unfolding(scope::specs::Step::answered, scope::specs::Answers::plain, scope::specs::Answers::answer, answers::specs::Outcomes::answer_of, answers::specs::Outcomes::answer_shown, answers::specs::Outcomes::outcome))]

ghost use Rattle.std.specs.Prelude.{◌≡◌, ℕ, ◌≤◌, List};
ghost use Rattle.scope.specs.Calls.{call_at};
ghost use Rattle.scope.specs.Step.{answered};
ghost use Rattle.rows.specs.Kinds.{receive_number};
ghost use Rattle.answers.specs.Outcomes.{answer_shown, outcome_of};

use answers::{Notices, Outcome};
use rows::{Call, ReceiveCall};
use scope::{Refusal, Request, State};

// What a receive does, on a state lent as one thing. Who may make it is tested before. None of them wakes a task.
pub fn does(
    s: &mut State,
    notices: &mut Notices,
    call: ReceiveCall,
    request: &Request,
) -> Result<Outcome, Refusal>
    ensures answer { (m : List ℕ) → answer_shown s.new notices.new.wakes notices.new.shown (outcome_of s.old.running result)
        ≡ (call_at (receive_number call)).does s.old request.now.a request.now.b request.now.c request.now.d request.now.e m }
    ensures running { s.new.running ≡ s.old.running }
{
    notices.wakes = [0; 32];
    match call {
        ReceiveCall::Receive => {
            queues::queue_receive(s, &mut notices.shown, request.a, request.b, request.c)
        }
        ReceiveCall::Info => {
            notices.shown = [0; 64];
            queues::queue_info(&*s, request.a)
        }
    }
}

// A receive by its number: the caller's test, the call, and who runs after it, which is kept in the state. A refused caller wakes nobody and is shown nothing.
pub fn receive(s: &mut State, notices: &mut Notices, request: &Request) -> Outcome
    requires { 25 ≤ request.now.call }
    ensures { ((m : List ℕ) → answer_shown s.new notices.new.wakes notices.new.shown result
        ≡ answered s.old request.now.call request.now.mark request.now.a request.now.b request.now.c request.now.d request.now.e m)
        × (s.new.running ≡ result.runs) }
{
    let running = s.running;
    match chapters::allowed(request.call, request.mark, running) {
        Ok(Call::Receive(call)) => {
            let outcome = answers::outcome_of(does(s, notices, call, request), running);
            s.running = outcome.runs;
            outcome
        }
        // Another chapter's calls have other numbers.
        Ok(_) => unreachable!(),
        Err(refusal) => {
            *notices = Notices::new();
            answers::plain(refusal.number(), running)
        }
    }
}
