// The queue calls. Only what a queue holds is moved among its cells; a message handed to a
// waiter is written once, into what is shown. queue_send and queue_jump may come from an interrupt.
// Each call is lent the state and changes it where it lies; who runs then, its outcome says. A refusal changes nothing.
// (scope's specs/Queues.antt.)
// (A cast by `as` stands where Rust has no `From`; each is proved to lose nothing.)
// (Queue i is object 16 + i, as the definitions have it. A message is lent whole, with how many of its bytes count: so the definitions
// `shown_of` and `cell_of` take it.)
// (Options come as a number. Each call reads the bit as its own, and tests the number at its own place among its refusals.)
#![tactic(auto, unfolding(scope::specs::Choice::pick, tables::specs::Slots::slot_of, scope::specs::Answers::on_found, scope::specs::Answers::plain, scope::specs::Answers::gives, scope::specs::Answers::shows, scope::specs::Answers::answer, scope::specs::Answers::wakes_with, scope::specs::Answers::delivers_to, scope::specs::Answers::bit_of, answers::specs::Outcomes::outcome, answers::specs::Outcomes::woke, answers::specs::Outcomes::delivered, answers::specs::Outcomes::answer_of, answers::specs::Outcomes::answer_shown, waiting::specs::Calls::time_out, waiting::specs::Calls::wait_for, scope::specs::Queues::are_limits, scope::specs::Queues::fits_queue, scope::specs::Queues::queue_create, scope::specs::Queues::queue_create_at, scope::specs::Queues::queue_delete_at, scope::specs::Queues::queue_ident, scope::specs::Queues::queue_ident_at, scope::specs::Queues::queue_put_at, scope::specs::Queues::queue_wait_at, scope::specs::Queues::queue_receive_at, scope::specs::Queues::queue_info_at), using(seats::proofs::Laws::few))]

ghost use Rattle.std.specs.Prelude.{◌≡◌, true, ◌<◌, ◌≤◌, length};
ghost use Rattle.scope.specs.Answers.{no_wakes, on_found};
ghost use Rattle.scope.specs.Queues.{queue_create, queue_delete, queue_ident, queue_found, fits_queue, store_of, with_store, queue_put_at, queue_send, queue_jump, queue_receive, queue_info};
ghost use Rattle.answers.specs.Outcomes.{answer_shown, answer_of, outcome_of};
ghost use Rattle.queues.specs.Handing.{handed, put_of};

use answers::{Notices, Outcome};
use rows::SendCall;
use scope::{Queues, Refusal, State};

// The longest message that any queue holds.
const LAST_LENGTH: u32 = 64;

// A new queue in the lowest slot that is free.
pub fn queue_create(
    s: &mut State,
    what: u32,
    most: u32,
    longest: u32,
    options: u32,
) -> Result<Outcome, Refusal>
    ensures answer { answer_of s.new no_wakes (outcome_of s.old.running result) ≡ queue_create s.old what most longest options }
    ensures running { s.new.running ≡ s.old.running }
{
    if !messages::are_limits(most, longest) {
        return Err(Refusal::InvalidParameter);
    }
    if scope::LAST_OPTION < options {
        return Err(Refusal::InvalidOptions);
    }
    let u = &mut s.queues;
    let i = tables::lowest_usable(&*u).ok_or(Refusal::TooManyObjects)?;
    let next = u.serial[i] + 1;
    u.name[i] = what;
    u.serial[i] = next;
    u.live[i] = true;
    u.fifo[i] = options == scope::FIFO;
    u.limits[2 * i] = most as u8;
    u.limits[2 * i + 1] = longest as u8;
    Ok(answers::gives(tables::identifier(next, i), s.running))
}

// "Delete drops what is held and wakes waiters in order."
pub fn queue_delete(s: &mut State, wakes: &mut [u32; 32], id: u32) -> Result<Outcome, Refusal>
    ensures answer { answer_of s.new wakes.new (outcome_of s.old.running result) ≡ queue_delete s.old id }
    ensures running { s.new.running ≡ s.old.running }
{
    *wakes = [0; 32];
    let i = tables::find(&s.queues, id)?;
    let woken = waiting::wake_all(&mut s.line, &s.tasks, wakes, 16 + i);
    messages::clear(&mut s.queues, i);
    let u = &mut s.queues;
    u.name[i] = 0;
    u.live[i] = false;
    u.fifo[i] = false;
    u.limits[2 * i] = 0;
    u.limits[2 * i + 1] = 0;
    Ok(answers::woke(woken, scope::QUEUE_DELETED, seats::runner(&s.line)))
}

// The identifier of the queue of that name.
// (Each kind of object has this call, with a definition of its own; the search is one.)
pub fn queue_ident(s: &State, what: u32) -> Result<Outcome, Refusal>
    ensures { answer_of s.now no_wakes (outcome_of s.now.running result) ≡ queue_ident s.now what }
{
    let id = tables::ident(&s.queues, what)?;
    Ok(answers::gives(id, s.running))
}

// Neither "too long for the queue", nor are "the lent bytes .. fewer".
fn fits(longest: u8, n: u32, message: &[u8]) -> bool
    ensures value { result ≡ fits_queue longest n message.now }
    ensures told { result ≡ true → (n ≤ 64) × (n ≤ length message.now) }
{
    n <= u32::from(longest) && n <= LAST_LENGTH && n as usize <= message.len()
}

// The message goes to the first waiter `t`: it is shown beside the wake.
fn deliver(s: &mut State, notices: &mut Notices, message: &[u8], n: u32, t: usize) -> Outcome
    requires t_bound { (t < 32) × (n ≤ 64) × (n ≤ length message.now) }
    requires wakes_value { notices.old.wakes ≡ no_wakes }
    ensures answer { answer_shown s.new notices.new.wakes notices.new.shown result ≡ handed s.old n message.now t }
    ensures running { s.new.running ≡ s.old.running }
{
    waiting::wake_next(&mut s.line, &s.tasks, &mut notices.wakes, 0, t);
    notices.shown = messages::shown_of(message, n as usize);
    answers::delivered(n, seats::runner(&s.line))
}

// A message sent becomes the last that queue `i` holds, one that jumps the first.
fn hold(u: &mut Queues, call: SendCall, i: usize, cell: [u8; 65])
    requires { i < 8 }
    ensures { u.new ≡ with_store u.old (put_of call (store_of u.old) i cell) }
{
    match call {
        SendCall::Send => messages::append(u, i, cell),
        SendCall::Jump => messages::push_front(u, i, cell),
    }
}

// "A message goes to the first waiter or else" the queue holds it. 27 before 28.
// (Each parameter is a fact of its own.)
// (In line: a result that a call stores field by field, and its caller reads as a whole at once, has the reader wait for the stores.)
#[inline(always)]
fn put(
    s: &mut State,
    notices: &mut Notices,
    message: &[u8],
    call: SendCall,
    id: u32,
    n: u32,
) -> Result<Outcome, Refusal>
    ensures answer { answer_shown s.new notices.new.wakes notices.new.shown (outcome_of s.old.running result)
        ≡ on_found (queue_found s.old id) s.old (queue_put_at (put_of call) s.old n message.now) }
    ensures running { s.new.running ≡ s.old.running }
{
    *notices = Notices::new();
    let i = tables::find(&s.queues, id)?;
    if !fits(s.queues.limits[2 * i + 1], n, message) {
        return Err(Refusal::InvalidLength);
    }
    if let Some(t) = seats::first_waiter(&s.line, 16 + i) {
        return Ok(deliver(s, notices, message, n, t));
    }
    let most = s.queues.limits[2 * i];
    let held = s.queues.held[i];
    if most <= held {
        return Err(Refusal::QueueFull);
    }
    hold(
        &mut s.queues,
        call,
        i,
        messages::cell_of(message, n as usize),
    );
    Ok(answers::plain(scope::OK, s.running))
}

// A message of the first `n` bytes lent goes to the first waiter, or else to the queue's end.
pub fn queue_send(
    s: &mut State,
    notices: &mut Notices,
    message: &[u8],
    id: u32,
    n: u32,
) -> Result<Outcome, Refusal>
    ensures answer { answer_shown s.new notices.new.wakes notices.new.shown (outcome_of s.old.running result) ≡ queue_send s.old id n message.now }
    ensures running { s.new.running ≡ s.old.running }
{
    put(s, notices, message, SendCall::Send, id, n)
}

// Or else to its front.
// (Two calls of the table, by one function.)
pub fn queue_jump(
    s: &mut State,
    notices: &mut Notices,
    message: &[u8],
    id: u32,
    n: u32,
) -> Result<Outcome, Refusal>
    ensures answer { answer_shown s.new notices.new.wakes notices.new.shown (outcome_of s.old.running result) ≡ queue_jump s.old id n message.now }
    ensures running { s.new.running ≡ s.old.running }
{
    put(s, notices, message, SendCall::Jump, id, n)
}

// "an immediate receive beside the answer, whose first figure is its length"; where no message is held, who runs waits for one, as long
// as it will.
pub fn queue_receive(
    s: &mut State,
    shown: &mut [u8; 64],
    id: u32,
    options: u32,
    ticks: u32,
) -> Result<Outcome, Refusal>
    ensures answer { answer_shown s.new no_wakes shown.new (outcome_of s.old.running result) ≡ queue_receive s.old id options ticks }
    ensures running { s.new.running ≡ s.old.running }
{
    *shown = [0; 64];
    let i = tables::find(&s.queues, id)?;
    let time_out = waiting::time_out(options, ticks)?;
    let held = s.queues.held[i];
    if 0 < held {
        let n = messages::take_first(&mut s.queues, i, shown);
        return Ok(answers::gives(u32::from(n), s.running));
    }
    let ticks = time_out.ok_or(Refusal::QueueEmpty)?;
    let fifo = s.queues.fifo[i];
    waiting::wait_for(s, 16 + i, fifo, ticks)
}

// "Info gives options, messages held, tasks waiting."
pub fn queue_info(s: &State, id: u32) -> Result<Outcome, Refusal>
    ensures { answer_of s.now no_wakes (outcome_of s.now.running result) ≡ queue_info s.now id }
{
    let u = &s.queues;
    let i = tables::find(u, id)?;
    let waiting = seats::waiters(&s.line, 16 + i) as u32;
    let options = u32::from(u.fifo[i]);
    let holds = u32::from(u.held[i]);
    Ok(answers::tells(options, holds, waiting, 0, false, s.running))
}
