// The benchmark: plays a mix by a step that the program gives, and answers a checksum of the answers. A mix is a file: four numbers (how
// many records, how many of them are the first part, how often the rest is played, zero) and then the records, as in a script.
// (A cast by `as` stands where Rust has no `From`; each is proved to lose nothing.)
#![tactic(auto, unfolding(scope::specs::Choice::pick, crate::specs::Mixes::head_of, crate::specs::Mixes::mix_record, crate::specs::Mixes::summed_with))]

ghost use Rattle.std.specs.Prelude.{◌≡◌, ◌-◌, ◌<◌};
ghost use Rattle.mixing.specs.Mixes.{head_of, mix_record, mixed_with, summed_with};
ghost use Rattle.mixing.specs.Playing.{Steps, Plays, ready, Played};

use answers::{Notices, Outcome};
use scope::{Request, State};

#[derive(Clone, Copy)]
pub struct Head {
    pub count: usize,
    pub first: usize,
    pub rounds: u32,
}

// What a step is lent beside the record: the state, and what it tells beside its outcome.
#[derive(Clone, Copy)]
pub struct Lent {
    // (First: after the state their addresses would agree in the last twelve bits with those of the first queue's messages, and reading a
    // message would wait for the stores of the wake list.)
    pub notices: Notices,
    pub state: State,
}

// The head of a mix; nothing to play where there is none.
pub fn head_of(file: &[u8]) -> Head
    ensures { result ≡ head_of file.now }
{
    if file.len() < 16 {
        return Head {
            count: 0,
            first: 0,
            rounds: 0,
        };
    }
    Head {
        count: text::read_number(file, 0) as usize,
        first: text::read_number(file, 4) as usize,
        rounds: text::read_number(file, 8),
    }
}

// Record k of a mix; a tick by nobody past its end.
pub fn record_at(file: &[u8], k: usize) -> Request
    ensures { result ≡ mix_record file.now k }
{
    if k < 2340 {
        let at = 16 + 28 * k;
        if at + 28 <= file.len() {
            return text::read_record(file, at);
        }
    }
    Request {
        call: 0,
        mark: 0,
        a: 0,
        b: 0,
        c: 0,
        d: 0,
        e: 0,
    }
}

// A checksum that depends on the order.
fn mixed(sum: u32, x: u32) -> u32
    ensures { result ≡ mixed_with sum x }
{
    ((u64::from(sum) * 31 + u64::from(x)) % 4294967296) as u32
}

// The checksum with an answer's status, running task, first two values, number of wakes and first wake.
pub fn summed(sum: u32, o: Outcome, running: u32, wakes: &[u32; 32]) -> u32
    ensures { result ≡ summed_with sum o running wakes.now }
{
    let v = o.values;
    let a = mixed(mixed(mixed(sum, o.status), running), v[0]);
    mixed(mixed(mixed(a, v[1]), (o.woken % 64) as u32), wakes[0])
}

// Plays records `from` to `to` once, the state changed where it lies, and goes on with the checksum.
fn play<F: Fn(&mut Lent, Request) -> Outcome>(
    file: &[u8],
    from: usize,
    to: usize,
    lent: &mut Lent,
    first: u32,
    step: &F,
) -> u32
    requires { F.IsAlwaysCallable step.now }
    ensures { Plays (Steps F.Fn step.now) file.now from (to - from) (ready lent.old.state) first lent.new result }
{
    lent.notices = Notices::new();
    let mut sum = first;
    for i in from..to {
        let o = step(lent, record_at(file, i));
        let running = answers::running_of(&lent.state);
        sum = summed(sum, o, running, &lent.notices.wakes);
    }
    sum
}

// The first part once, then the rest as often as the head says, each time from the state that the first part left. (The step is a type
// parameter, so that each program has the loop's code with its own step in it.)
pub fn rounds<F: Fn(&mut Lent, Request) -> Outcome>(file: &[u8], step: F) -> u32
    requires { F.IsAlwaysCallable step }
    ensures { Played (Steps F.Fn step) file.now result }
{
    let head = head_of(file);
    let mut lent = Lent {
        state: fresh::fresh_value(5),
        notices: Notices::new(),
    };
    let mut sum = play(file, 0, head.first, &mut lent, 0, &step);
    let again = lent.state;
    for _round in 0..head.rounds {
        lent.state = again;
        sum = play(file, head.first, head.count, &mut lent, sum, &step);
    }
    sum
}
