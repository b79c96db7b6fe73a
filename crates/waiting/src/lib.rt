// Waiting and waking, for whatever tasks wait for: a task joins the queue of an object, and leaves it from whatever place.
// An object is a number below 31: 0 to 15 are the semaphores, 16 to 23 the message queues. (scope's specs/Waiting.antt.)
// (A cast by `as` stands where Rust has no `From`; each is proved to lose nothing.)
// (An object is a number, as the definitions have it: scope's specs/Objects.antt. The wake list is lent beside its count, which the outcome
// tells: there is no heap.)
// (Options come as a number. Each call reads the bit as its own, and tests the number at its own place among its refusals.)
#![tactic(auto, unfolding(scope::specs::Choice::pick, scope::specs::Waiting::queue_key, scope::specs::Waiting::waits, scope::specs::Waiting::woken_seats, scope::specs::Waiting::woken_rings, scope::specs::Waiting::wake, scope::specs::Waiting::wake_next, scope::specs::Seats::rings_ready, scope::specs::Answers::plain, scope::specs::Answers::answer, answers::specs::Outcomes::outcome, answers::specs::Outcomes::answer_of, crate::specs::Calls::time_out, crate::specs::Calls::wait_for))]

ghost use Rattle.std.specs.Prelude.{◌≡◌, ◌+◌, ◌<◌};
ghost use Rattle.scope.specs.Waiting.{waits, wake_next, wake_all};
ghost use Rattle.scope.specs.Answers.{no_wakes};
ghost use Rattle.answers.specs.Columns.{waking_from};
ghost use Rattle.answers.specs.Outcomes.{answer_of, outcome_of};
ghost use Rattle.waiting.specs.Calls.{time_out, wait_for};

use answers::Outcome;
use scope::{Line, Refusal, State, Tasks};

// Task `t` leaves the ready order and joins the queue of object `i`. What does not wait for another store is stored first: so less is kept for
// later.
// (Each parameter is a fact of its own: the caller has read the queue's order and the task's priority.)
pub fn wait(line: &mut Line, i: usize, fifo: bool, priority: u8, ticks: u32, t: usize)
    requires { (i < 31) × (t < 32) }
    ensures { line.new ≡ waits line.old i fifo priority ticks t }
{
    line.left[t] = ticks;
    seats::take_out(line, t);
    let base = (i * 64 + 64) as u16;
    if fifo {
        seats::join_last(&mut line.seat, t, base);
    } else {
        seats::join(&mut line.seat, &line.joined, t, base, priority);
    }
    line.joined[t] = priority;
}

// Task `t` leaves its queue and waits no longer, and is the next of the wake list. What is asked of it is read once, before a seat changes:
// the compiler could not tell that it stays the same.
pub fn wake_next(line: &mut Line, tasks: &Tasks, wakes: &mut [u32; 32], woken: usize, t: usize)
    requires { (t < 32) × (woken < 32) }
    ensures { waking_from line.new wakes.new (woken + 1) ≡ wake_next tasks.now (waking_from line.old wakes.old woken) t }
{
    let is_suspended = tasks.suspended[t];
    let priority = tasks.priority[t];
    seats::wake(&mut line.seat, t, is_suspended, priority);
    if !is_suspended {
        line.rings[0] = seats::mask_filled(line.rings[0], priority);
    }
    line.left[t] = 0;
    line.joined[t] = 0;
    wakes[woken] = tables::identifier(tasks.serial[t], t);
}

// "Delete wakes all waiters in queue order": the first, while there is one. Answers how many were woken.
pub fn wake_all(line: &mut Line, tasks: &Tasks, wakes: &mut [u32; 32], i: usize) -> usize
    requires { i < 31 }
    ensures { waking_from line.new wakes.new result ≡ wake_all tasks.now i 32 (waking_from line.old wakes.old 0) }
{
    for n in 0..32 {
        let Some(t) = seats::first_waiter(line, i) else {
            return n;
        };
        wake_next(line, tasks, wakes, n, t);
    }
    32
}

// How long a call may wait: not at all with NOWAIT, which looks at no time_out.
pub fn time_out(options: u32, ticks: u32) -> Result<Option<u32>, Refusal>
    ensures { result ≡ time_out options ticks }
{
    if scope::LAST_OPTION < options {
        return Err(Refusal::InvalidOptions);
    }
    if times::lacks_time_out(options, ticks) {
        return Err(Refusal::InvalidParameter);
    }
    if options == scope::NOWAIT {
        return Ok(None);
    }
    Ok(Some(ticks))
}

// The running task waits for object `i`.
// (In line: a result that a call stores field by field, and its caller reads as a whole at once, has the reader wait for the stores.)
#[inline(always)]
pub fn wait_for(s: &mut State, i: usize, fifo: bool, ticks: u32) -> Result<Outcome, Refusal>
    requires { i < 31 }
    ensures answer { answer_of s.new no_wakes (outcome_of s.old.running result) ≡ wait_for s.old i fifo ticks }
    ensures running { s.new.running ≡ s.old.running }
{
    let t = s.running;
    if scope::TASKS <= t {
        return Err(Refusal::NoCaller);
    }
    wait(&mut s.line, i, fifo, s.tasks.priority[t], ticks, t);
    Ok(answers::plain(scope::PENDING, seats::runner(&s.line)))
}
