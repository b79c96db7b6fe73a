// "A fresh state holds one started task, identifier 64, name 0, of a given priority 0 to 15, and nothing else." (scope's specs/Fresh.antt.)
// (A cast by `as` stands where Rust has no `From`; each is proved to lose nothing.)
#![tactic(auto)]

ghost use Rattle.std.specs.Prelude.{◌≡◌, ◌<◌, ◌≤◌};
ghost use Rattle.scope.specs.Fresh.{fresh_tasks, fresh_line, no_semaphores, no_pools, no_queues, fresh_state, fresh};

use scope::{Line, Pools, Queues, Refusal, Semaphores, State, Tasks};

fn fresh_tasks(priority: u8) -> Tasks
    ensures { result ≡ fresh_tasks priority }
{
    let mut k = Tasks {
        name: [0; 32],
        serial: [0; 32],
        live: [false; 32],
        started: [false; 32],
        suspended: [false; 32],
        priority: [0; 32],
    };
    k.serial[0] = 1;
    k.live[0] = true;
    k.started[0] = true;
    k.priority[0] = priority;
    k
}

fn fresh_line(priority: u8) -> Line
    requires { priority < 16 }
    ensures { result ≡ fresh_line priority }
{
    let mut l = Line {
        left: [0; 32],
        seat: [0; 32],
        joined: [0; 32],
        rings: [0; 1],
    };
    l.seat[0] = u16::from(priority) * 64 + 2048 + 1;
    l.rings[0] = 1u16 << u32::from(priority);
    l
}

// ( Printed by tools/generate/run: empty
fn no_semaphores() -> Semaphores
    ensures { result ≡ no_semaphores }
{
    Semaphores {
        name: [0; 16],
        serial: [0; 16],
        units: [0; 16],
        live: [false; 16],
        fifo: [false; 16],
    }
}

fn no_pools() -> Pools
    ensures { result ≡ no_pools }
{
    Pools {
        out: [0; 8],
        name: [0; 8],
        address: [0; 8],
        length: [0; 8],
        size: [0; 8],
        serial: [0; 8],
        live: [false; 8],
        forced: [false; 8],
        place: [0; 512],
    }
}

fn no_queues() -> Queues
    ensures { result ≡ no_queues }
{
    Queues {
        name: [0; 8],
        serial: [0; 8],
        live: [false; 8],
        fifo: [false; 8],
        limits: [0; 16],
        held: [0; 8],
        cells: [0; 8320],
    }
}
// )

fn fresh_state(priority: u8) -> State
    requires { priority < 16 }
    ensures { result ≡ fresh_state priority }
{
    State {
        line: fresh_line(priority),
        tasks: fresh_tasks(priority),
        semaphores: no_semaphores(),
        pools: no_pools(),
        queues: no_queues(),
        running: 0,
    }
}

// The first task's priority: the one that is asked for, or 0.
fn first_priority(priority: u32) -> u8
    ensures above { 15 < priority → result ≡ 0 }
    ensures within { priority ≤ 15 → result ≡ priority }
    ensures small { result < 16 }
{
    if 15 < priority {
        return 0;
    }
    priority as u8
}

// The fresh state by value: for who keeps a state of their own. "Asked with a priority above 15, .. the fresh state of priority 0."
#[tactic(auto, unfolding(scope::specs::Fresh::fresh, scope::specs::Choice::pick))]
pub fn fresh_value(priority: u32) -> State
    ensures { result ≡ (fresh priority).state }
{
    let first = first_priority(priority);
    fresh_state(first)
}

// The status of a fresh state: "Asked with a priority above 15, the answer is 19".
#[tactic(auto, unfolding(scope::specs::Fresh::fresh, scope::specs::Choice::pick))]
pub fn fresh_status(priority: u32) -> u32
    ensures { result ≡ (fresh priority).status }
{
    if 15 < priority {
        return Refusal::InvalidPriority.number();
    }
    scope::OK
}

// The fresh state, written where the lent one lies, whatever that was; answers the status. No Result: there is a state beside the refusal
// too, and the definition `fresh`, on which the theorems over scripts stand, gives both.
pub fn fresh(s: &mut State, priority: u32) -> u32
    ensures { (s.new ≡ (fresh priority).state) × (result ≡ (fresh priority).status) }
{
    *s = fresh_value(priority);
    fresh_status(priority)
}
