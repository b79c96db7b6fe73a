// The caller's test, which stands in front of the calls of every chapter: the call and its caller come in as numbers, and go on as kinds.
// (scope's specs/Step.antt.)
#![tactic(auto, unfolding(scope::specs::Choice::pick, scope::specs::Step::caller_refusal))]

ghost use Rattle.std.specs.Prelude.{◌≡◌, IfOk};
ghost use Rattle.scope.specs.Refusals.{status_of};
ghost use Rattle.scope.specs.Step.{caller_refusal};
ghost use Rattle.rows.specs.Kinds.{number_of};

use rows::{Call, Caller};
use scope::Refusal;

// The call that is asked for, where its caller may make it: 25, 24, 2, in that order, by the call table. Which call it is, is told last, so
// that the choice of its kind and the choice by its kind are one.
pub fn allowed(call: u32, mark: u32, running: usize) -> Result<Call, Refusal>
    ensures refusal { status_of result ≡ caller_refusal call mark running }
    ensures kind { IfOk result (λ kind. number_of kind ≡ call) }
{
    if rows::CALLS <= call as usize {
        return Err(Refusal::BadCall);
    }
    let caller = Caller::from_mark(mark).ok_or(Refusal::BadCall)?;
    let may = rows::may_call(call, caller);
    match caller {
        Caller::Task if !may => Err(Refusal::BadCall),
        Caller::Task if running >= scope::TASKS => Err(Refusal::NoCaller),
        Caller::Interrupt if !may => Err(Refusal::IllegalUse),
        _ => Call::from_number(call).ok_or(Refusal::BadCall),
    }
}
