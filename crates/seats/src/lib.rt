// The verbs of the queues: leave from anywhere, join behind a key, first, who runs, how many; and of the mask of the rings that
// hold a task. Nobody else touches a seat.
// A seat is queue × 64 + place; slot 32 is nobody. (scope's specs/Seats.antt.)
// `as` narrows a number that is proved to fit: `try_from` would make a Result that is never an Err.
// (That a task's slot or an object's number lies in its range is asked by number: a type for each would be unwrapped at every index. The
// functions below `take_out` and `put_in` take the seats alone, by value where the compiler then looks at many at a time.)
#![tactic(auto, unfolding(scope::specs::Choice::pick, scope::specs::Seats::waits_on))]

ghost use Rattle.std.specs.Prelude.{◌≡◌, ℕ, ◌+◌, ◌*◌, ◌/◌, ◌^◌, ◌<◌, ◌&&◌, ◌⊎◌, List, map, nat_le, nat_lt, slice_set, ◌≤◌, MatchOption};
ghost use Rattle.scope.specs.Choice.{pick, has_bit};
ghost use Rattle.scope.specs.Views.{ready_with};
ghost use Rattle.scope.specs.Seats.{lower, raise, leaves, joins, becomes_ready, ahead_of, on_seat, first_standing, standing, runner_of, waits_on, queue_seats, seats_end};
ghost use Rattle.scope.specs.Seats.{mask_filled, mask_emptied, rings_left, rings_ready, first_ring, mask_of, ring_of, holds_task, ring_mask};

use scope::Line;

// The way from seat `x` on to seat `y`; to a seat before `x` it wraps.
fn way(x: u16, y: u16) -> u16
    ensures { (x + result ≡ y) ⊎ ((x + result ≡ y + 65536) × (y < x) × (y < result)) }
{
    y.wrapping_sub(x)
}

// A seat after seat `x` was left; `reach` is the way from `x` to the end of its queue's seats. Which seats lie between is told by one
// comparison, that of the ways.
fn lowered(y: u16, x: u16, reach: u16) -> u16
    requires { x + reach ≡ seats_end x }
    ensures { result ≡ lower x (seats_end x) y }
{
    if y == x {
        return 0;
    }
    if way(x, y) < reach {
        return y - 1;
    }
    y
}

// The seats after one was left, and whether anybody is the first of its queue then. No Option: the seats are needed either way.
#[derive(Clone, Copy)]
struct Closed {
    seats: [u16; 32],
    held: bool,
}

// The seats after seat `x` was left. Who is first is asked in the same pass.
fn close_up(q: [u16; 32], x: u16) -> Closed
    ensures { (result.seats ≡ map (lower x (seats_end x)) q) × (result.held ≡ nat_lt (on_seat (map (lower x (seats_end x)) q) (x / 64 * 64 + 1)) 32) }
{
    let reach = 63 - x % 64;
    let first = x / 64 * 64 + 1;
    let mut seats = q;
    let mut held = false;
    for y in seats.iter_mut() {
        *y = lowered(*y, x, reach);
        held = held | (*y == first);
    }
    Closed { seats, held }
}

// A seat after another task took seat `x`; `reach` is the way from `x` to the end of its queue's seats.
fn raised(y: u16, x: u16, reach: u16) -> u16
    requires { x + reach < 65536 }
    ensures { result ≡ raise x (x + reach) y }
{
    if way(x, y) < reach {
        return y + 1;
    }
    y
}

// The last seat taken above `base`, in a queue's 62 seats; `base` if there is none. By the least way from a seat to the queue's last, longer
// than any from a seat past it, with no branch for each task: the compiler takes many seats at a time.
fn hindmost(q: [u16; 32], base: u16) -> u16
    requires { base < 65000 }
    ensures { (key : List ℕ) → result ≡ ahead_of q key base (base + 63) 0 32 }
{
    let last = base + 62;
    let mut least: u16 = 62;
    for y in &q {
        least = least.min(way(*y, last));
    }
    last - least
}

// Seat `y` if its task's key is `p` or more; else 0, which is nowhere.
fn seat_ahead(y: u16, key: u8, p: u8) -> u16
    ensures { result ≡ pick (nat_le p key) y 0 }
{
    if p <= key {
        return y;
    }
    0
}

// The last of those seats whose task's key is `p` or more; `base` if there is none.
fn ahead(q: [u16; 32], key: [u8; 32], base: u16, p: u8) -> u16
    requires { base < 65000 }
    ensures { result ≡ ahead_of q key base (base + 63) p 32 }
{
    let mut seats = q;
    for k in 0..32 {
        seats[k] = seat_ahead(seats[k], key[k], p);
    }
    hindmost(seats, base)
}

// The seats after another task took seat `x`; `reach` is the way from `x` to the end of its queue's seats.
fn make_room(q: [u16; 32], x: u16, reach: u16) -> [u16; 32]
    requires { x + reach < 65536 }
    ensures { result ≡ map (raise x (x + reach)) q }
{
    let mut seats = q;
    for y in seats.iter_mut() {
        *y = raised(*y, x, reach);
    }
    seats
}

// Task `t`, which stands nowhere, joins the queue whose seats begin above `base`, behind all whose key is `p` or more.
// Its own seat is written last, where it lies: a copy made behind that store would wait for it.
pub fn join(seat: &mut [u16; 32], key: &[u8; 32], t: usize, base: u16, p: u8)
    requires { (t < 32) × (base < 65000) }
    ensures { seat.new ≡ joins seat.old key.now t base p }
{
    let x = ahead(*seat, *key, base, p) + 1;
    *seat = make_room(*seat, x, base + 63 - x);
    seat[t] = x;
}

// The seat behind all of that queue. Nobody there has to go back for who takes it.
fn seat_behind(q: [u16; 32], base: u16) -> u16
    requires { base < 65000 }
    ensures { (key : List ℕ) (t : ℕ) → slice_set q t result ≡ joins q key t base 0 }
{
    hindmost(q, base) + 1
}

// Task `t`, which stands nowhere, joins that queue behind all.
pub fn join_last(seat: &mut [u16; 32], t: usize, base: u16)
    requires { (t < 32) × (base < 65000) }
    ensures { (key : List ℕ) → seat.new ≡ joins seat.old key t base 0 }
{
    let x = seat_behind(*seat, base);
    seat[t] = x;
}

// Task `t`, which stands nowhere, goes behind all ready tasks of priority `p`.
pub fn make_ready(seat: &mut [u16; 32], t: usize, p: u8)
    requires { t < 32 }
    ensures { (key : List ℕ) → seat.new ≡ becomes_ready seat.old key t p }
{
    join_last(seat, t, u16::from(p) * 64 + 2048);
}

// The seats after one was left, and the seat behind all of some queue then: names for what one pass makes.
#[derive(Clone, Copy)]
struct Moved {
    seats: [u16; 32],
    behind: u16,
}

// The seats after seat `x` was left, and the seat behind all of the queue whose seats begin above `base`: both in one pass.
fn move_up(q: [u16; 32], x: u16, base: u16) -> Moved
    requires { base < 65000 }
    ensures { (result.seats ≡ map (lower x (seats_end x)) q) × ((key : List ℕ) (t : ℕ) → slice_set result.seats t result.behind ≡ joins result.seats key t base 0) }
{
    let reach = 63 - x % 64;
    let last = base + 62;
    let mut seats = q;
    let mut least: u16 = 62;
    for y in seats.iter_mut() {
        *y = lowered(*y, x, reach);
        least = least.min(way(*y, last));
    }
    Moved {
        seats,
        behind: last - least + 1,
    }
}

// Seat `y`, or nowhere for a task that is suspended.
fn seat_unless(suspended: bool, y: u16) -> u16
    ensures { result ≡ pick suspended 0 y }
{
    if suspended {
        return 0;
    }
    y
}

// Task `t` leaves the queue it stands in and, unless it is suspended, goes behind all ready tasks of priority `p`.
pub fn wake(seat: &mut [u16; 32], t: usize, suspended: bool, p: u8)
    requires { t < 32 }
    ensures { (key : List ℕ) → seat.new
        ≡ pick suspended (leaves seat.old t) (becomes_ready (leaves seat.old t) key t p) }
{
    let x = seat[t];
    let Moved { seats, behind } = move_up(*seat, x, u16::from(p) * 64 + 2048);
    *seat = seats;
    seat[t] = seat_unless(suspended, behind);
}

// The task on seat `x`.
pub fn on_seat(q: &[u16; 32], x: u16) -> Option<usize>
    ensures { MatchOption result (32 ≤ on_seat q.now x) (λ t. (t < 32) × (t ≡ on_seat q.now x)) }
{
    q.iter().position(|y| *y == x)
}

// Whether somebody is on seat `x`. Without a branch for each task: the compiler takes many seats at a time.
pub fn is_taken(q: [u16; 32], x: u16) -> bool
    ensures { result ≡ nat_lt (on_seat q x) 32 }
{
    let mut taken = false;
    for y in &q {
        taken = taken | (*y == x);
    }
    taken
}

// The first waiter of object `i`. Most often there is none: that is asked first, of all seats at once.
pub fn first_waiter(line: &Line, i: usize) -> Option<usize>
    requires { i < 31 }
    ensures { MatchOption result (32 ≤ first_standing line.now.seat (queue_seats i)) (λ t. (t < 32) × (t ≡ first_standing line.now.seat (queue_seats i))) }
{
    let x = (i * 64 + 65) as u16;
    if is_taken(line.seat, x) {
        return on_seat(&line.seat, x);
    }
    None
}

// 1 for a task that stands above `base`, before `end`; else 0.
fn one_in(y: u16, base: u16, end: u16) -> usize
    ensures { result ≡ pick {A = ℕ} (nat_lt base y && nat_lt y end) 1 0 }
{
    usize::from(base < y && y < end)
}

// How many tasks wait for object `i`.
pub fn waiters(line: &Line, i: usize) -> usize
    requires { i < 31 }
    ensures { result ≡ standing line.now.seat (queue_seats i) }
{
    let base = (i * 64 + 64) as u16;
    let end = base + 63;
    let mut n = 0;
    for y in &line.seat {
        n += one_in(*y, base, end);
    }
    n
}

// Whether bit `k` of a mask is set.
fn has_bit(mask: u16, k: u32) -> bool
    requires { k < 16 }
    ensures { result ≡ has_bit mask k }
{
    (mask >> k) % 2 == 1
}

// The mask after ring `p` got a task: its bit is set. A mask has sixteen bits.
pub fn mask_filled(mask: u16, p: u8) -> u16
    ensures { result ≡ mask_filled mask p }
{
    if 16 <= p {
        return mask;
    }
    let k = u32::from(p);
    if has_bit(mask, k) {
        return mask;
    }
    mask + (1u16 << k)
}

// The mask after ring `p` lost its last task: its bit is cleared.
fn mask_emptied(mask: u16, p: u16) -> u16
    ensures { result ≡ mask_emptied mask p }
{
    if 16 <= p {
        return mask;
    }
    let k = u32::from(p);
    if has_bit(mask, k) {
        return mask - (1u16 << k);
    }
    mask
}

// The mask after seat `x` was left; `held` says whether anybody is the first of its queue then. It changes where `x` was in a ring and nobody is.
fn mask_left(mask: u16, held: bool, x: u16) -> u16
    ensures { result ≡ pick (nat_lt x first_ring) mask (pick held mask (mask_emptied mask (ring_of x))) }
{
    if x < 2048 {
        return mask;
    }
    if held {
        return mask;
    }
    mask_emptied(mask, x / 64 - 32)
}

// Task `t` leaves the queue it stands in, and the mask follows. Its seat is read where it lies: read from a copy of all seats, the copy
// would have to be made.
pub fn take_out(line: &mut Line, t: usize)
    requires { t < 32 }
    ensures { line.new ≡ record line.old { seat = leaves line.old.seat t; rings = rings_left line.old.rings line.old.seat t } }
{
    let x = line.seat[t];
    let Closed { seats, held } = close_up(line.seat, x);
    line.seat = seats;
    line.rings[0] = mask_left(line.rings[0], held, x);
}

// Task `t`, which stands nowhere, becomes ready with priority `p`, and the mask follows.
pub fn put_in(line: &mut Line, t: usize, p: u8)
    requires { t < 32 }
    ensures { line.new ≡ record line.old { seat = becomes_ready line.old.seat line.old.joined t p; rings = rings_ready line.old.rings p } }
{
    make_ready(&mut line.seat, t, p);
    line.rings[0] = mask_filled(line.rings[0], p);
}

// The running task: the first of the ring that the leading zeros of the mask name; 32 if no ring holds a task. Slot 0 is asked before the
// search is called: the first task is who runs while all others wait.
// The answer stays a number, as `State.running` does, which it is written to: the theorems of the state compare it with 32.
pub fn runner(line: &Line) -> usize
    ensures { result ≡ runner_of line.now.seat (mask_of line.now.rings) }
{
    let mask = line.rings[0];
    if mask == 0 {
        return 32;
    }
    let p = 15 - u16::leading_zeros(mask);
    let x = (p * 64 + 2049) as u16;
    if line.seat[0] == x {
        return 0;
    }
    on_seat(&line.seat, x).unwrap_or(32)
}

// Whether a task on this seat waits in an object's queue.
pub fn waits_on(x: u16) -> bool
    ensures { result ≡ waits_on x }
{
    0 < x && x < 2048
}

// "A task is ready if started, not waiting and not suspended." Without a branch, so that a rule asks several tasks at a time.
#[tactic(auto, unfolding(scope::specs::Views::ready_with))]
pub fn is_ready(started: bool, suspended: bool, x: u16) -> bool
    ensures { result ≡ ready_with started suspended x }
{
    started & !suspended & !waits_on(x)
}

// Bit `p` of a mask where ring `p` holds a task, else 0.
fn ring_bit(q: &[u16; 32], p: u32) -> u16
    requires { p < 16 }
    ensures { result ≡ pick (holds_task q.now p) (2 ^ p) 0 }
{
    if is_taken(*q, (p * 64 + 2049) as u16) {
        return 1u16 << p;
    }
    0
}

// The mask of the rings that hold a task.
pub fn ring_mask(q: &[u16; 32]) -> u16
    ensures { result ≡ ring_mask q.now }
{
    let mut mask = 0;
    for p in 0..16 {
        mask += ring_bit(q, p);
    }
    mask
}
