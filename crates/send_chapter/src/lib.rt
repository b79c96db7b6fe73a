// The sends, a chapter of the call table: `does` chooses the call by its kind, `send` by its number, with the caller's test in front.
// (scope's specs/Step.antt and Calls.antt.)
#![tactic(auto, unfolding(scope::specs::Step::answered, scope::specs::Answers::plain, scope::specs::Answers::answer, answers::specs::Outcomes::answer_shown, answers::specs::Outcomes::outcome))]

ghost use Rattle.std.specs.Prelude.{◌≡◌, ◌<◌, ◌≤◌};
ghost use Rattle.scope.specs.Calls.{call_at};
ghost use Rattle.scope.specs.Step.{answered};
ghost use Rattle.rows.specs.Kinds.{send_number};
ghost use Rattle.answers.specs.Outcomes.{answer_shown, outcome_of};

use answers::{Notices, Outcome};
use rows::{Call, SendCall};
use scope::{Refusal, Request, State};

// What a send does, on a state lent as one thing. Who may make it is tested before. It writes all of the notices itself.
pub fn does(
    s: &mut State,
    notices: &mut Notices,
    message: &[u8],
    call: SendCall,
    request: &Request,
) -> Result<Outcome, Refusal>
    ensures answer { answer_shown s.new notices.new.wakes notices.new.shown (outcome_of s.old.running result)
        ≡ (call_at (send_number call)).does s.old request.now.a request.now.b request.now.c request.now.d request.now.e message.now }
    ensures running { s.new.running ≡ s.old.running }
{
    match call {
        SendCall::Send => queues::queue_send(s, notices, message, request.a, request.b),
        SendCall::Jump => queues::queue_jump(s, notices, message, request.a, request.b),
    }
}

// A send by its number: the caller's test, the call, and who runs after it, which is kept in the state. A refused caller wakes nobody and is shown nothing.
pub fn send(s: &mut State, notices: &mut Notices, message: &[u8], request: &Request) -> Outcome
    requires { (23 ≤ request.now.call) × (request.now.call < 25) }
    ensures { (answer_shown s.new notices.new.wakes notices.new.shown result
        ≡ answered s.old request.now.call request.now.mark request.now.a request.now.b request.now.c request.now.d request.now.e message.now)
        × (s.new.running ≡ result.runs) }
{
    let running = s.running;
    match chapters::allowed(request.call, request.mark, running) {
        Ok(Call::Send(call)) => {
            let outcome = answers::outcome_of(does(s, notices, message, call, request), running);
            s.running = outcome.runs;
            outcome
        }
        // Another chapter's calls have other numbers.
        Ok(_) => unreachable!(),
        Err(refusal) => {
            *notices = Notices::new();
            answers::plain(refusal.number(), running)
        }
    }
}
