// The shapes of an answer. A call changes the state where it lies; what it answers beside it and the wake list is
// its outcome: refused or plainly done, one value, several values, tasks woken, a message delivered. (specs/Outcomes.antt, and scope's specs/Answers.antt.)
#![tactic(auto, unfolding(scope::specs::Choice::pick, scope::specs::Answers::bit_of, scope::specs::Views::running_task, crate::specs::Outcomes::outcome, crate::specs::Outcomes::woke, crate::specs::Outcomes::delivered))]

ghost use Rattle.std.specs.Prelude.{◌≡◌, false, ◌+◌, ◌*◌, get_or, ltb};
ghost use Rattle.scope.specs.Choice.{pick};
ghost use Rattle.scope.specs.Answers.{bit_of};
ghost use Rattle.scope.specs.Views.{running_task};
ghost use Rattle.answers.specs.Outcomes.{outcome, outcome_of, woke, delivered, blank};

use scope::{Refusal, State};

// What a call answers beside the state and the wake list. (A status, a sign and a delivery stand beside the values, and a count beside the
// lent wake list: the definitions of an answer have this shape, theorems stand on them, and C's answer of 236 bytes is read so.)
#[derive(Clone, Copy)]
pub struct Outcome {
    pub status: u32,
    pub values: [u32; 4],
    // Whether the second value stands for minus that number: sem_info's count.
    pub negative: bool,
    // How many of the wake list's places are used, all woken with the status `why`.
    pub woken: usize,
    pub why: u32,
    // The slot of who runs after the call, 32 if nobody.
    pub runs: usize,
    // Whether the wake is the delivery of a message, and that message's length.
    pub delivers: bool,
    pub length: u32,
}

// What a call tells beside its outcome: the wake list, and the message shown, zeros where there is none.
#[derive(Clone, Copy)]
pub struct Notices {
    pub wakes: [u32; 32],
    pub shown: [u8; 64],
}

impl Notices {
    // Nobody woken, no message shown.
    pub fn new() -> Notices
        ensures { result ≡ blank }
    {
        Notices {
            wakes: [0; 32],
            shown: [0; 64],
        }
    }
}

// The identifier of the task that runs in a state; 0 for nobody.
pub fn running_of(s: &State) -> u32
    ensures { result ≡ running_task s.now }
{
    running_task(&s.tasks.serial, s.running)
}

// The identifier of the task that runs; 0 for nobody.
pub fn running_task(serial: &[u16; 32], t: usize) -> u32
    ensures { result ≡ pick (ltb t 32) (get_or serial.now t 0 * 64 + t) 0 }
{
    if t < 32 {
        return tables::identifier(serial[t], t);
    }
    0
}

// An option's bit as a number.
pub fn bit(b: bool) -> u32
    ensures { result ≡ bit_of b }
{
    u32::from(b)
}

// Done, with four values.
pub fn tells(v0: u32, v1: u32, v2: u32, v3: u32, negative: bool, runs: usize) -> Outcome
    ensures { result ≡ outcome 0 v0 v1 v2 v3 negative runs }
{
    Outcome {
        status: scope::OK,
        values: [v0, v1, v2, v3],
        negative,
        woken: 0,
        why: 0,
        runs,
        delivers: false,
        length: 0,
    }
}

// A status and nothing more.
pub fn plain(status: u32, runs: usize) -> Outcome
    ensures { result ≡ outcome status 0 0 0 0 false runs }
{
    Outcome {
        status,
        ..gives(0, runs)
    }
}

// Done, with one value.
pub fn gives(v: u32, runs: usize) -> Outcome
    ensures { result ≡ outcome 0 v 0 0 0 false runs }
{
    tells(v, 0, 0, 0, false, runs)
}

// Done, with so many tasks woken, all with the status `why`.
pub fn woke(woken: usize, why: u32, runs: usize) -> Outcome
    ensures { result ≡ woke woken why runs }
{
    Outcome {
        woken,
        why,
        ..gives(0, runs)
    }
}

// Done, with one task woken: a message of so many bytes is delivered to it.
pub fn delivered(length: u32, runs: usize) -> Outcome
    ensures { result ≡ delivered length runs }
{
    Outcome {
        delivers: true,
        length,
        ..woke(1, scope::OK, runs)
    }
}

// The outcome of a call that may be refused: a refusal leaves who runs.
pub fn outcome_of(answered: Result<Outcome, Refusal>, running: usize) -> Outcome
    ensures { result ≡ outcome_of running answered }
{
    match answered {
        Ok(done) => done,
        Err(refusal) => plain(refusal.number(), running),
    }
}
