// The semaphore calls. A semaphore keeps its free units; its count is those less the tasks
// that wait, so whoever leaves its queue gives its one back by leaving. sem_release may come from an interrupt.
// Each call is lent the state and changes it where it lies; who runs then, its outcome says. A refusal changes nothing.
// (scope's specs/Semaphores.antt.)
// (A cast by `as` stands where Rust has no `From`; each is proved to lose nothing.)
// (Options come as a number. Each call reads the bit as its own, and tests the number at its own place among its refusals.)
#![tactic(auto, unfolding(scope::specs::Choice::pick, tables::specs::Slots::slot_of, scope::specs::Answers::on_found, scope::specs::Answers::plain, scope::specs::Answers::gives, scope::specs::Answers::answer, scope::specs::Answers::wakes_with, scope::specs::Answers::bit_of, scope::specs::Views::less, answers::specs::Outcomes::outcome, answers::specs::Outcomes::woke, answers::specs::Outcomes::answer_of, waiting::specs::Calls::time_out, waiting::specs::Calls::wait_for, scope::specs::Semaphores::sem_create, scope::specs::Semaphores::sem_create_at, scope::specs::Semaphores::sem_delete_at, scope::specs::Semaphores::sem_ident, scope::specs::Semaphores::sem_ident_at, scope::specs::Semaphores::sem_wait_at, scope::specs::Semaphores::sem_claim_at, scope::specs::Semaphores::sem_release_at, scope::specs::Semaphores::sem_info_at), using(seats::proofs::Laws::few))]

ghost use Rattle.std.specs.Prelude.{◌≡◌, ◌<◌};
ghost use Rattle.scope.specs.Answers.{no_wakes};
ghost use Rattle.scope.specs.Semaphores.{sem_create, sem_delete, sem_ident, sem_claim, sem_release, sem_info};
ghost use Rattle.answers.specs.Outcomes.{answer_of, outcome_of};

use answers::Outcome;
use scope::{Refusal, State};

// The greatest count.
const LAST_COUNT: u16 = 32767;

// A new semaphore in the lowest slot that is free, with so many units.
pub fn sem_create(s: &mut State, what: u32, count: u32, options: u32) -> Result<Outcome, Refusal>
    ensures answer { answer_of s.new no_wakes (outcome_of s.old.running result) ≡ sem_create s.old what count options }
    ensures running { s.new.running ≡ s.old.running }
{
    if u32::from(LAST_COUNT) < count {
        return Err(Refusal::InvalidCount);
    }
    if scope::LAST_OPTION < options {
        return Err(Refusal::InvalidOptions);
    }
    let m = &mut s.semaphores;
    let i = tables::lowest_usable(&*m).ok_or(Refusal::TooManyObjects)?;
    let next = m.serial[i] + 1;
    m.name[i] = what;
    m.serial[i] = next;
    m.units[i] = count as u16;
    m.live[i] = true;
    m.fifo[i] = options == scope::FIFO;
    Ok(answers::gives(tables::identifier(next, i), s.running))
}

// All that wait for it are woken, and it is gone.
pub fn sem_delete(s: &mut State, wakes: &mut [u32; 32], id: u32) -> Result<Outcome, Refusal>
    ensures answer { answer_of s.new wakes.new (outcome_of s.old.running result) ≡ sem_delete s.old id }
    ensures running { s.new.running ≡ s.old.running }
{
    *wakes = [0; 32];
    let i = tables::find(&s.semaphores, id)?;
    let woken = waiting::wake_all(&mut s.line, &s.tasks, wakes, i);
    let m = &mut s.semaphores;
    m.name[i] = 0;
    m.units[i] = 0;
    m.live[i] = false;
    m.fifo[i] = false;
    Ok(answers::woke(woken, scope::SEMAPHORE_DELETED, seats::runner(&s.line)))
}

// The identifier of the semaphore of that name.
// (Each kind of object has this call, with a definition of its own; the search is one.)
pub fn sem_ident(s: &State, what: u32) -> Result<Outcome, Refusal>
    ensures { answer_of s.now no_wakes (outcome_of s.now.running result) ≡ sem_ident s.now what }
{
    let id = tables::ident(&s.semaphores, what)?;
    Ok(answers::gives(id, s.running))
}

// A unit where one is free; else who runs waits for one, as long as it will.
pub fn sem_claim(s: &mut State, id: u32, options: u32, ticks: u32) -> Result<Outcome, Refusal>
    ensures answer { answer_of s.new no_wakes (outcome_of s.old.running result) ≡ sem_claim s.old id options ticks }
    ensures running { s.new.running ≡ s.old.running }
{
    let i = tables::find(&s.semaphores, id)?;
    let time_out = waiting::time_out(options, ticks)?;
    let free = s.semaphores.units[i];
    if 0 < free {
        s.semaphores.units[i] = free - 1;
        return Ok(answers::plain(scope::OK, s.running));
    }
    let ticks = time_out.ok_or(Refusal::SemaphoreNotAvailable)?;
    let fifo = s.semaphores.fifo[i];
    waiting::wait_for(s, i, fifo, ticks)
}

// "If there were waiters the first leaves, woken with OK: that is its grant."
pub fn sem_release(s: &mut State, wakes: &mut [u32; 32], id: u32) -> Result<Outcome, Refusal>
    ensures answer { answer_of s.new wakes.new (outcome_of s.old.running result) ≡ sem_release s.old id }
    ensures running { s.new.running ≡ s.old.running }
{
    *wakes = [0; 32];
    let i = tables::find(&s.semaphores, id)?;
    if let Some(t) = seats::first_waiter(&s.line, i) {
        waiting::wake_next(&mut s.line, &s.tasks, wakes, 0, t);
        return Ok(answers::woke(1, scope::OK, seats::runner(&s.line)));
    }
    let free = s.semaphores.units[i];
    if LAST_COUNT <= free {
        return Err(Refusal::SemaphoreOverflow);
    }
    s.semaphores.units[i] = free + 1;
    Ok(answers::plain(scope::OK, s.running))
}

// "sem_info gives options, count, tasks waiting". The count is the units less the tasks waiting, with a sign.
pub fn sem_info(s: &State, id: u32) -> Result<Outcome, Refusal>
    ensures { answer_of s.now no_wakes (outcome_of s.now.running result) ≡ sem_info s.now id }
{
    let m = &s.semaphores;
    let i = tables::find(m, id)?;
    let waiting = seats::waiters(&s.line, i) as u32;
    let options = u32::from(m.fifo[i]);
    let free = u32::from(m.units[i]);
    Ok(answers::tells(
        options,
        free.abs_diff(waiting),
        waiting,
        0,
        free < waiting,
        s.running,
    ))
}
