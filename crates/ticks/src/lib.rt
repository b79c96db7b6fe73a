// The tick: one taken from each running time_out, then those who reached 0 woken in ascending slot order.
// (scope's specs/Ticks.antt.)
#![tactic(auto, unfolding(scope::specs::Ticks::times_left, scope::specs::Ticks::is_due))]

ghost use Rattle.std.specs.Prelude.{◌≡◌, ◌&&◌, eqb, nat_eq, count_by};
ghost use Rattle.scope.specs.Seats.{waits_on};
ghost use Rattle.scope.specs.Ticks.{times_left, wake_due, tick};
ghost use Rattle.answers.specs.Outcomes.{answer_of};
ghost use Rattle.answers.specs.Columns.{waking_from};

use answers::Outcome;
use scope::{Line, State, Tasks};

// The time_outs when one is taken from each that runs, and from how many it was the last one. Both are told of every tick, so neither is an
// Option of the other.
#[derive(Clone, Copy)]
struct Taken {
    left: [u32; 32],
    last: u32,
}

// Both in one pass without a branch: most ticks wake nobody, and are told so by the time_outs alone. They are counted in a number as wide as
// a time_out, which the compiler adds up where it compares.
fn take_one(left: [u32; 32]) -> Taken
    ensures { (result.left ≡ times_left left) × (result.last ≡ count_by (λ x. nat_eq x 1) left) }
{
    let mut left = left;
    let mut last = 0;
    for x in left.iter_mut() {
        last += u32::from(*x == 1);
        *x = times::time_left(*x);
    }
    Taken { left, last }
}

// A task on this seat with this left of its time_out waits, and the tick takes the last one. (What is left is asked first: of few tasks
// it is one, and who waits changes from tick to tick.)
fn is_due(seat: u16, left: u32) -> bool
    ensures { result ≡ (waits_on seat && eqb left 1) }
{
    left == 1 && seats::waits_on(seat)
}

// "Those reaching 0 are woken with 13 in ascending slot order", told by the time_outs and the seats before the tick.
// Answers how many were woken.
fn wake_due(
    line: &mut Line,
    tasks: &Tasks,
    wakes: &mut [u32; 32],
    left: &[u32; 32],
    seat: &[u16; 32],
) -> usize
    ensures { waking_from line.new wakes.new result ≡ wake_due tasks.now (record line.old { left = left.now; seat = seat.now }) 32 0 (waking_from line.old wakes.old 0) }
{
    let mut woken = 0;
    for t in 0..32 {
        if is_due(seat[t], left[t]) {
            waiting::wake_next(line, tasks, wakes, woken, t);
            woken += 1;
        }
    }
    woken
}

// To wake a task moves others' seats, so who is due is asked of what stood before the tick: of two columns, which are copied only where
// somebody may be due.
pub fn tick(s: &mut State, wakes: &mut [u32; 32]) -> Outcome
    ensures answer { answer_of s.new wakes.new result ≡ tick s.old }
    ensures running { s.new.running ≡ s.old.running }
{
    *wakes = [0; 32];
    let Taken { left, last } = take_one(s.line.left);
    if last == 0 {
        s.line.left = left;
        return answers::woke(0, scope::TIME_OUT, seats::runner(&s.line));
    }
    let before = s.line.left;
    let seat = s.line.seat;
    s.line.left = left;
    let woken = wake_due(&mut s.line, &s.tasks, wakes, &before, &seat);
    let runs = seats::runner(&s.line);
    answers::woke(woken, scope::TIME_OUT, runs)
}
