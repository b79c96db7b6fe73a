// The task calls. One public function a call, refusals first.
// Each call is lent the state and changes it where it lies; who runs then, its outcome says. (scope's specs/Tasks.antt.)
#![tactic(auto, unfolding(scope::specs::Choice::pick, scope::specs::Tasks::task_found, tables::specs::Slots::slot_of, scope::specs::Answers::on_found, scope::specs::Answers::plain, scope::specs::Answers::gives, scope::specs::Answers::answer, answers::specs::Outcomes::outcome, answers::specs::Outcomes::answer_of, scope::specs::Tasks::task_create, scope::specs::Tasks::task_create_at, scope::specs::Tasks::task_delete_at, scope::specs::Tasks::task_ident, scope::specs::Tasks::task_ident_at, scope::specs::Tasks::task_start_at, scope::specs::Tasks::task_suspend_at, scope::specs::Tasks::task_resume_at, scope::specs::Tasks::task_set_priority_at))]

ghost use Rattle.std.specs.Prelude.{◌≡◌, ◌<◌, IfOk};
ghost use Rattle.scope.specs.Answers.{no_wakes};
ghost use Rattle.scope.specs.Tasks.{task_found, task_create, task_delete, task_ident, task_start, task_suspend, task_resume, task_set_priority};
ghost use Rattle.answers.specs.Outcomes.{answer_of, outcome_of};
ghost use Rattle.tables.specs.Slots.{slot_of};

use answers::Outcome;
use scope::{Refusal, State};

// "16 priorities (0 to 15, 15 most urgent)"
const LAST_PRIORITY: u32 = 15;

// The task an identifier names; 0 is SELF, the caller. Who runs is a slot, 32 for nobody: theorems speak of the state in this shape.
fn named(s: &State, id: u32) -> Result<usize, Refusal>
    ensures value { result ≡ slot_of (task_found s.now id) }
    ensures in_bounds { IfOk result (λ i. i < 32) }
{
    if id != 0 {
        return tables::find(&s.tasks, id);
    }
    if s.running < scope::TASKS {
        return Ok(s.running);
    }
    Err(Refusal::InvalidId)
}

pub fn task_create(s: &mut State, name: u32, priority: u32) -> Result<Outcome, Refusal>
    ensures answer { answer_of s.new no_wakes (outcome_of s.old.running result)
        ≡ task_create s.old name priority }
    ensures running { s.new.running ≡ s.old.running }
{
    if LAST_PRIORITY < priority {
        return Err(Refusal::InvalidPriority);
    }
    let t = tables::lowest_usable(&s.tasks).ok_or(Refusal::TooManyObjects)?;
    let next = s.tasks.serial[t] + 1;
    s.tasks.name[t] = name;
    s.tasks.serial[t] = next;
    s.tasks.live[t] = true;
    s.tasks.started[t] = false;
    s.tasks.suspended[t] = false;
    // The first test has told that it fits: a `u8::try_from` would refuse it once more.
    s.tasks.priority[t] = priority as u8;
    Ok(answers::gives(tables::identifier(next, t), s.running))
}

// A waiter leaves its queue, and so gives its one back.
pub fn task_delete(s: &mut State, id: u32) -> Result<Outcome, Refusal>
    ensures answer { answer_of s.new no_wakes (outcome_of s.old.running result)
        ≡ task_delete s.old id }
    ensures running { s.new.running ≡ s.old.running }
{
    let t = named(&*s, id)?;
    s.tasks.name[t] = 0;
    s.tasks.live[t] = false;
    s.tasks.started[t] = false;
    s.tasks.suspended[t] = false;
    s.tasks.priority[t] = 0;
    seats::take_out(&mut s.line, t);
    s.line.left[t] = 0;
    s.line.joined[t] = 0;
    Ok(answers::plain(scope::OK, seats::runner(&s.line)))
}

// (Each kind of object has this call, with a definition of its own; the search is one.)
pub fn task_ident(s: &State, name: u32) -> Result<Outcome, Refusal>
    ensures { answer_of s.now no_wakes (outcome_of s.now.running result)
        ≡ task_ident s.now name }
{
    let id = tables::ident(&s.tasks, name)?;
    Ok(answers::gives(id, s.running))
}

pub fn task_start(s: &mut State, id: u32) -> Result<Outcome, Refusal>
    ensures answer { answer_of s.new no_wakes (outcome_of s.old.running result)
        ≡ task_start s.old id }
    ensures running { s.new.running ≡ s.old.running }
{
    let t = named(&*s, id)?;
    if s.tasks.started[t] {
        return Err(Refusal::TaskAlreadyStarted);
    }
    s.tasks.started[t] = true;
    seats::put_in(&mut s.line, t, s.tasks.priority[t]);
    Ok(answers::plain(scope::OK, seats::runner(&s.line)))
}

// "A suspended waiter keeps its place"; a ready task leaves the ready order.
pub fn task_suspend(s: &mut State, id: u32) -> Result<Outcome, Refusal>
    ensures answer { answer_of s.new no_wakes (outcome_of s.old.running result)
        ≡ task_suspend s.old id }
    ensures running { s.new.running ≡ s.old.running }
{
    let t = named(&*s, id)?;
    if !s.tasks.started[t] {
        return Err(Refusal::TaskNotStarted);
    }
    if s.tasks.suspended[t] {
        return Err(Refusal::TaskAlreadySuspended);
    }
    s.tasks.suspended[t] = true;
    let x = s.line.seat[t];
    if seats::waits_on(x) {
        return Ok(answers::plain(scope::OK, s.running));
    }
    seats::take_out(&mut s.line, t);
    Ok(answers::plain(scope::OK, seats::runner(&s.line)))
}

// "it becomes ready when it neither waits nor is suspended"
pub fn task_resume(s: &mut State, id: u32) -> Result<Outcome, Refusal>
    ensures answer { answer_of s.new no_wakes (outcome_of s.old.running result)
        ≡ task_resume s.old id }
    ensures running { s.new.running ≡ s.old.running }
{
    let t = named(&*s, id)?;
    if !s.tasks.started[t] {
        return Err(Refusal::TaskNotStarted);
    }
    if !s.tasks.suspended[t] {
        return Err(Refusal::TaskNotSuspended);
    }
    s.tasks.suspended[t] = false;
    if seats::waits_on(s.line.seat[t]) {
        return Ok(answers::plain(scope::OK, s.running));
    }
    seats::put_in(&mut s.line, t, s.tasks.priority[t]);
    Ok(answers::plain(scope::OK, seats::runner(&s.line)))
}

// A ready task is taken out and put in again behind its new equals.
pub fn task_set_priority(s: &mut State, id: u32, priority: u32) -> Result<Outcome, Refusal>
    ensures answer { answer_of s.new no_wakes (outcome_of s.old.running result)
        ≡ task_set_priority s.old id priority }
    ensures running { s.new.running ≡ s.old.running }
{
    let t = named(&*s, id)?;
    if LAST_PRIORITY < priority {
        return Err(Refusal::InvalidPriority);
    }
    let before = s.tasks.priority[t];
    // The test above has told that it fits: a `u8::try_from` would refuse it once more.
    let after = priority as u8;
    s.tasks.priority[t] = after;
    if seats::is_ready(s.tasks.started[t], s.tasks.suspended[t], s.line.seat[t]) {
        seats::take_out(&mut s.line, t);
        seats::put_in(&mut s.line, t, after);
        return Ok(answers::gives(u32::from(before), seats::runner(&s.line)));
    }
    Ok(answers::gives(u32::from(before), s.running))
}
