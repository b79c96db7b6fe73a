// "Rules of a state": each a function named after its rule, asked in six parts (that of the messages held stands in crate messages). A
// part is lent the part of the state that it reads, so the state stays where it lies. Nothing stops at the first failure: a state is nearly
// always sound, and a loop without a way out in its middle runs several slots at a time. So tests are joined by `&`, which asks both, and
// a rule of all slots is `every` of the rule of a slot.
// (scope's specs/Rules.antt.)
// (That a slot lies in its table is asked by number. An object is a semaphore or a queue, by its number, as the definitions have it: so a row
// of each is read side by side.)
#![tactic(auto, unfolding(scope::specs::Choice::pick, scope::specs::Seats::waits_on, scope::specs::Objects::of_object, scope::specs::Objects::objects, scope::specs::Views::ready_with, scope::specs::Rules::seat_right, scope::specs::Rules::rings_right, scope::specs::Rules::ready_right, scope::specs::Rules::wait_right, scope::specs::Rules::joined_right, scope::specs::Rules::start_right, scope::specs::Rules::task_right, scope::specs::Rules::sem_right, scope::specs::Rules::queue_right, scope::specs::Rules::pool_right, scope::specs::Rules::admitted, scope::specs::Rules::running_right, scope::specs::Rules::seats_right, scope::specs::Rules::ready_order_right, scope::specs::Rules::waits_right, scope::specs::Rules::queues_sorted, scope::specs::Rules::counts_right, scope::specs::Rules::held_right, scope::specs::Rules::starts_right, scope::specs::Rules::tasks_right, scope::specs::Rules::sems_right, scope::specs::Rules::queues_right, scope::specs::Rules::pools_right, scope::specs::Rules::orders_right))]

ghost use Rattle.std.specs.Prelude.{◌≡◌, true, ◌&&◌, ◌%◌, ◌^◌, ◌-◌, ◌<◌, ℕ, Bool, false, get_or, eqb, ltb};
ghost use Rattle.scope.specs.Choice.{pick, number, every};
ghost use Rattle.scope.specs.Seats.{is_on, queue_seats, queue_of, on_seat, standing};
ghost use Rattle.scope.specs.Objects.{queue_object, of_object, objects_of};
ghost use Rattle.scope.specs.Views.{less};
ghost use Rattle.scope.specs.Rules.{seat_right, seats_right, rings_right, ready_right, ready_order_right, wait_right, waits_right, joined_right, queues_sorted, count_right};
ghost use Rattle.scope.specs.Rules.{counts_right, holds_right, held_right, start_right, starts_right, task_right, tasks_right, sem_right, sems_right, queue_right, queues_right};
ghost use Rattle.scope.specs.Pools.{pool_row, pool_buffers};
ghost use Rattle.scope.specs.Rules.{admitted, pool_right, pools_right, order_right, orders_right, running_right, order_rules, keeps};
ghost use Rattle.rules.specs.Kept.{pools_kept};

use scope::{Line, Pools, Queues, Semaphores, State, Tasks};

// Whether every number below `n` passes a test: each is asked, whatever those before it answered. The answer is that of any definition,
// `passes`, that the test agrees with.
fn every<F: Fn(usize) -> bool>(n: usize, right: F) -> bool
    requires { (k : ℕ) → k < n → F.pre right k }
    ensures { (passes : ℕ → Bool) → ((k : ℕ) (answer : Bool) → k < n → F.post right k answer → answer ≡ passes k) → result ≡ every passes n }
{
    let mut ok = true;
    for i in 0..n {
        ok = right(i) & ok;
    }
    ok
}

// How many tasks are on seat `x`.
fn number_on(q: &[u16; 32], x: u16) -> u16
    ensures { result ≡ number (is_on q.now x) 32 }
{
    let mut n = 0;
    for y in q {
        n += u16::from(*y == x);
    }
    n
}

// Whether a seat is the first of its queue or directly behind another that is taken.
fn is_led(q: &[u16; 32], x: u16) -> bool
    ensures { result ≡ pick (eqb (x % 64) 1) true (ltb 1 (x % 64) && ltb (on_seat q.now (x - 1)) 32) }
{
    if x % 64 == 1 {
        return true;
    }
    if 1 < x % 64 {
        return seats::is_taken(*q, x - 1);
    }
    false
}

// Whether a seat that is taken is taken once, and is led by another or by none.
fn seat_right(q: &[u16; 32], x: u16) -> bool
    ensures { result ≡ seat_right q.now x }
{
    if x == 0 {
        return true;
    }
    (number_on(q, x) == 1) & is_led(q, x)
}

fn seats_right(q: &[u16; 32]) -> bool
    ensures { result ≡ seats_right q.now }
{
    every(32, |t| seat_right(q, q[t]))
}

// A ready task stands among those of its priority, and no other task stands among the ready.
fn ready_right(started: bool, suspended: bool, priority: u8, x: u16) -> bool
    ensures { result ≡ ready_right started suspended priority x }
{
    let base = u16::from(priority) * 64 + 2048;
    if seats::is_ready(started, suspended, x) {
        return (base < x) & (x < base + 63);
    }
    x < 2048
}

fn ready_order_right(line: &Line, tasks: &Tasks) -> bool
    ensures { result ≡ ready_order_right line.now tasks.now }
{
    every(32, |t| {
        ready_right(
            tasks.started[t],
            tasks.suspended[t],
            tasks.priority[t],
            line.seat[t],
        )
    })
}

// The kept mask is that of the rings that hold a task.
fn rings_right(line: &Line) -> bool
    ensures { result ≡ rings_right line.now }
{
    line.rings[0] == seats::ring_mask(&line.seat)
}

// What a row of the semaphores and one of the queues hold for object `i`; false where there is none.
fn of_object(sems: &[bool; 16], queues: &[bool; 8], i: usize) -> bool
    ensures { result ≡ of_object sems.now queues.now false i }
{
    if i < 16 {
        return sems[i];
    }
    if i < 24 {
        return queues[i - 16];
    }
    false
}

// And for the object whose wait queue seat `x` is in.
fn of_queue(sems: &[bool; 16], queues: &[bool; 8], x: u16) -> bool
    ensures { result ≡ of_object sems.now queues.now false (queue_of x) }
{
    of_object(sems, queues, usize::from((x / 64).saturating_sub(1)))
}

// A waiting task waits for a live semaphore or queue, with a time_out left and a joining priority; one that does not wait has neither.
fn wait_right(live: &[bool; 16], queues: &[bool; 8], x: u16, left: u32, joined: u8) -> bool
    ensures { result ≡ wait_right (of_object live.now queues.now false) x left joined }
{
    if seats::waits_on(x) {
        return (64 <= x) & of_queue(live, queues, x) & times::is_time_out(left) & (joined <= 15);
    }
    (left == 0) & (joined == 0)
}

fn waits_right(s: &State) -> bool
    ensures { result ≡ waits_right s.now.line (objects_of s.now).live }
{
    every(32, |t| {
        wait_right(
            &s.semaphores.live,
            &s.queues.live,
            s.line.seat[t],
            s.line.left[t],
            s.line.joined[t],
        )
    })
}

// The joining priority of the task on seat `x`; 0 where there is none.
fn joined_on(line: &Line, x: u16) -> u8
    ensures { result ≡ get_or line.now.joined (on_seat line.now.seat x) 0 }
{
    match seats::on_seat(&line.seat, x) {
        Some(t) => line.joined[t],
        None => 0,
    }
}

// In a queue that is not FIFO nobody has a higher joining priority than who stands directly ahead.
fn joined_right(line: &Line, fifo: &[bool; 16], queues: &[bool; 8], x: u16, priority: u8) -> bool
    ensures { result ≡ joined_right line.now.seat line.now.joined (of_object fifo.now queues.now false) x priority }
{
    if seats::waits_on(x) & (1 < x % 64) {
        if of_queue(fifo, queues, x) {
            return true;
        }
        return priority <= joined_on(line, x - 1);
    }
    true
}

fn queues_sorted(s: &State) -> bool
    ensures { result ≡ queues_sorted s.now.line (objects_of s.now).fifo }
{
    every(32, |t| {
        joined_right(
            &s.line,
            &s.semaphores.fifo,
            &s.queues.fifo,
            s.line.seat[t],
            s.line.joined[t],
        )
    })
}

// "A queue with n tasks, n above 0, has count −n; an empty queue has count 0 to 32,767."
// The count is the units less the tasks waiting.
fn count_right(waiting: usize, units: u16) -> bool
    ensures { result ≡ count_right waiting (less units waiting) }
{
    if 0 < waiting {
        return units == 0;
    }
    units <= 32767
}

fn counts_right(line: &Line, semaphores: &Semaphores) -> bool
    ensures { result ≡ counts_right line.now semaphores.now }
{
    every(
        16,
        |i| count_right(seats::waiters(line, i), semaphores.units[i]),
    )
}

// "a queue with waiters holds nothing, any other only what sends can leave". One that holds nothing breaks neither, so its
// waiters need not be counted.
fn holds_right(line: &Line, i: usize, held: u8, most: u8) -> bool
    requires { i < 8 }
    ensures { result ≡ holds_right (standing line.now.seat (queue_seats (queue_object i))) held most }
{
    if held == 0 {
        return true;
    }
    (seats::waiters(line, 16 + i) == 0) & (held <= most)
}

fn held_right(line: &Line, queues: &Queues) -> bool
    ensures { result ≡ held_right line.now queues.now }
{
    every(
        8,
        |i| holds_right(line, i, queues.held[i], queues.limits[2 * i]),
    )
}

// "Tasks not started neither wait nor are suspended."
fn start_right(started: bool, suspended: bool, x: u16) -> bool
    ensures { result ≡ start_right started suspended x }
{
    if started {
        return true;
    }
    !seats::waits_on(x) & !suspended
}

fn starts_right(line: &Line, tasks: &Tasks) -> bool
    ensures { result ≡ starts_right line.now tasks.now }
{
    every(
        32,
        |t| start_right(tasks.started[t], tasks.suspended[t], line.seat[t]),
    )
}

// A live task's serial and priority are in range; a slot without one holds its last serial and otherwise zeros. Both are asked of each slot,
// so that slots are tested several at a time.
fn task_right(tasks: &Tasks, t: usize) -> bool
    requires { t < 32 }
    ensures { result ≡ task_right tasks.now t }
{
    let in_range = (1 <= tasks.serial[t]) & (tasks.priority[t] <= 15);
    let empty = (tasks.name[t] == 0)
        & !tasks.started[t]
        & !tasks.suspended[t]
        & (tasks.priority[t] == 0);
    if tasks.live[t] {
        return in_range;
    }
    empty
}

// Whether the tasks' rule is kept.
pub fn tasks_right(tasks: &Tasks) -> bool
    ensures { result ≡ tasks_right tasks.now }
{
    every(32, |t| task_right(tasks, t))
}

fn sem_right(semaphores: &Semaphores, i: usize) -> bool
    requires { i < 16 }
    ensures { result ≡ sem_right semaphores.now i }
{
    let in_range = 1 <= semaphores.serial[i];
    let empty = (semaphores.name[i] == 0) & !semaphores.fifo[i] & (semaphores.units[i] == 0);
    if semaphores.live[i] {
        return in_range;
    }
    empty
}

// Whether the semaphores' rule is kept.
pub fn sems_right(semaphores: &Semaphores) -> bool
    ensures { result ≡ sems_right semaphores.now }
{
    every(16, |i| sem_right(semaphores, i))
}

// "most messages (1 to 16), longest message (1 to 64)"; a slot without a queue holds its last serial and otherwise zeros.
fn queue_right(queues: &Queues, i: usize) -> bool
    requires { i < 8 }
    ensures { result ≡ queue_right queues.now i }
{
    let most = queues.limits[2 * i];
    let longest = queues.limits[2 * i + 1];
    let in_range = (1 <= queues.serial[i])
        & messages::are_limits(u32::from(most), u32::from(longest));
    let empty = (queues.name[i] == 0)
        & !queues.fifo[i]
        & (most == 0)
        & (longest == 0)
        & (queues.held[i] == 0);
    if queues.live[i] {
        return in_range;
    }
    empty
}

// Whether the queues' rule is kept.
pub fn queues_right(queues: &Queues) -> bool
    ensures { result ≡ queues_right queues.now }
{
    every(8, |i| queue_right(queues, i))
}

// Whether no mark is set past the first `n` buffers.
fn is_within(out: u64, n: u32) -> bool
    ensures { result ≡ ltb out (2 ^ n) }
{
    if n < 64 {
        return out >> n == 0;
    }
    true
}

// "Each live pool is one that creation admits"; no mark is set past its buffers.
fn is_admitted(address: u32, length: u32, size: u32, out: u64) -> bool
    ensures { result ≡ admitted address length size out }
{
    areas::is_area(address, length)
        & areas::is_size(length, size)
        & is_within(out, areas::buffers_of(length, size))
}

// A slot without a live pool holds its last serial and otherwise zeros.
fn pool_right(pools: &Pools, i: usize) -> bool
    requires { i < 8 }
    ensures { result ≡ pool_right pools.now i }
{
    if pools.live[i] {
        return (1 <= pools.serial[i])
            & is_admitted(
                pools.address[i],
                pools.length[i],
                pools.size[i],
                pools.out[i],
            );
    }
    (pools.out[i] == 0)
        & (pools.name[i] == 0)
        & (pools.address[i] == 0)
        & (pools.length[i] == 0)
        & (pools.size[i] == 0)
        & !pools.forced[i]
}

fn pools_right(pools: &Pools) -> bool
    ensures { result ≡ pools_right pools.now }
{
    every(8, |i| pool_right(pools, i))
}

// "The order of free buffers joins the state, each free buffer once", of one pool.
fn order_right(pools: &Pools, i: usize) -> bool
    requires { i < 8 }
    ensures { result ≡ order_right (pool_row pools.now i) (get_or pools.now.out i 0) (pool_buffers pools.now i) }
{
    let n = areas::buffers_of(pools.length[i], pools.size[i]);
    places::order_right(&pools.place, i, pools.out[i], n)
}

fn orders_right(pools: &Pools) -> bool
    ensures { result ≡ orders_right pools.now }
{
    every(8, |i| order_right(pools, i))
}

// Whether the pools' rules are kept.
pub fn pools_kept(pools: &Pools) -> bool
    ensures { result ≡ pools_kept pools.now }
{
    pools_right(pools) & orders_right(pools) & areas::pools_apart(pools)
}

// The kept running task is the one that runs.
fn running_right(s: &State) -> bool
    ensures { result ≡ running_right s.now }
{
    s.running == seats::runner(&s.line)
}

// Whether the rules of orders and queues are kept.
pub fn orders_kept(s: &State) -> bool
    ensures { result ≡ keeps order_rules s.now }
{
    seats_right(&s.line.seat)
        & rings_right(&s.line)
        & ready_order_right(&s.line, &s.tasks)
        & waits_right(s)
        & queues_sorted(s)
        & counts_right(&s.line, &s.semaphores)
        & held_right(&s.line, &s.queues)
        & starts_right(&s.line, &s.tasks)
        & running_right(s)
}
