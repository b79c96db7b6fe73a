// The messages that queues hold, changed where they lie: only the cells that hold one are moved. (scope's specs/Messages.antt.)
// And how many a queue may hold, and how long. (Its specs/Queues.antt.)
// `as` narrows a number that is proved to fit: `try_from` would make a Result that is never an Err.
// (That a queue's number is below 8 is asked by number: a type for it would be unwrapped at every index.)
#![tactic(auto)]

ghost use Rattle.std.specs.Prelude.{◌≡◌, ◌+◌, ◌-◌, ◌*◌, ◌<◌, ◌≤◌, length, get_or, replicate, eqb};
ghost use Rattle.std.proofs.Math.Seq.{paste};
ghost use Rattle.scope.specs.Choice.{every};
ghost use Rattle.scope.specs.Queues.{are_limits, held_of, longest_of, store_of, with_store};
ghost use Rattle.scope.specs.Messages.{shown_of, cell_of, cells_of, first_length, first_shown, appended, pushed, taken, cleared, cell_at, cell_right, row_right};
ghost use Rattle.scope.specs.Rules.{messages_right};

use scope::Queues;

// "most messages (1 to 16), longest message (1 to 64)"
pub fn are_limits(most: u32, longest: u32) -> bool
    ensures { result ≡ are_limits most longest }
{
    (1 <= most) & (most <= 16) & (1 <= longest) & (longest <= 64)
}

// The first `n` bytes of a message lent, and zeros past them.
pub fn shown_of(message: &[u8], n: usize) -> [u8; 64]
    requires { (n ≤ 64) × (n ≤ length message.now) }
    ensures { result ≡ shown_of message.now n }
{
    let mut shown = [0; 64];
    shown[..n].copy_from_slice(&message[..n]);
    shown
}

// Its cell.
pub fn cell_of(message: &[u8], n: usize) -> [u8; 65]
    requires { (n ≤ 64) × (n ≤ length message.now) }
    ensures { result ≡ cell_of message.now n }
{
    let mut cell = [0; 65];
    cell[0] = n as u8;
    cell[1..1 + n].copy_from_slice(&message[..n]);
    cell
}

// A cell is written at `at`.
fn put(cells: &mut [u8], at: usize, cell: [u8; 65])
    requires { at + 65 ≤ length cells.old }
    ensures { cells.new ≡ paste cells.old at cell 65 }
{
    cells[at..at + 65].copy_from_slice(&cell);
}

fn wipe(cells: &mut [u8], at: usize, n: usize)
    requires { at + n ≤ length cells.old }
    ensures { cells.new ≡ paste cells.old at (replicate n 0) n }
{
    cells[at..at + n].fill(0);
}

// A message becomes the last of queue `i`.
pub fn append(queues: &mut Queues, i: usize, cell: [u8; 65])
    requires { i < 8 }
    ensures { queues.new ≡ with_store queues.old (appended (store_of queues.old) i cell) }
{
    let h = usize::from(queues.held[i]);
    if h < 16 {
        put(&mut queues.cells, i * 1040 + h * 65, cell);
        queues.held[i] += 1;
    }
}

// It becomes the first.
pub fn push_front(queues: &mut Queues, i: usize, cell: [u8; 65])
    requires { i < 8 }
    ensures { queues.new ≡ with_store queues.old (pushed (store_of queues.old) i cell) }
{
    let h = usize::from(queues.held[i]);
    if h < 16 {
        let at = i * 1040;
        queues.cells.copy_within(at..at + h * 65, at + 65);
        put(&mut queues.cells, at, cell);
        queues.held[i] += 1;
    }
}

// What a receive of queue `i` shows: the bytes, and as answer the length.
pub fn show_first(queues: &Queues, i: usize, shown: &mut [u8; 64]) -> u8
    requires { i < 8 }
    ensures shown_after { shown.new ≡ first_shown (cells_of queues.now.cells i) }
    ensures value { result ≡ first_length (cells_of queues.now.cells i) }
{
    let at = i * 1040;
    shown.copy_from_slice(&queues.cells[at + 1..at + 65]);
    queues.cells[at]
}

// The first message of queue `i` is gone.
pub fn drop_first(queues: &mut Queues, i: usize)
    requires { i < 8 }
    ensures { queues.new ≡ with_store queues.old (taken (store_of queues.old) i) }
{
    let h = usize::from(queues.held[i]);
    if 0 < h && h <= 16 {
        let at = i * 1040;
        let rest = (h - 1) * 65;
        queues.cells.copy_within(at + 65..at + 65 + rest, at);
        wipe(&mut queues.cells, at + rest, 65);
        queues.held[i] -= 1;
    }
}

// The first message of queue `i` goes out: its bytes are shown, its length is the answer.
pub fn take_first(queues: &mut Queues, i: usize, shown: &mut [u8; 64]) -> u8
    requires { i < 8 }
    ensures held_after { queues.new ≡ with_store queues.old (taken (store_of queues.old) i) }
    ensures shown_after { shown.new ≡ first_shown (cells_of queues.old.cells i) }
    ensures value { result ≡ first_length (cells_of queues.old.cells i) }
{
    let n = show_first(&*queues, i, shown);
    drop_first(queues, i);
    n
}

// "Delete drops what is held": queue `i` holds nothing.
pub fn clear(queues: &mut Queues, i: usize)
    requires { i < 8 }
    ensures { queues.new ≡ with_store queues.old (cleared (store_of queues.old) i) }
{
    wipe(&mut queues.cells, i * 1040, 1040);
    queues.held[i] = 0;
}

// Whether the bytes from `from` up to `to` are zeros. No way out in the middle: the compiler takes sixteen at a time.
// By index: where a length byte is above 64, `from` lies past `to`; that is no byte here, and as bounds of a slice it would panic.
fn zeros(cells: &[u8], from: usize, to: usize) -> bool
    requires { to ≤ length cells.now }
    ensures { result ≡ every (λ k. eqb (get_or cells.now (from + k) 0) 0) (to - from) }
{
    let mut some: u8 = 0;
    for j in from..to {
        some = some | cells[j];
    }
    some == 0
}

// Whether cell `k` of queue `i` holds a message of at most `longest` bytes, and zeros past it.
fn cell_right(cells: &[u8; 8320], i: usize, k: usize, longest: u8) -> bool
    requires { (i < 8) × (k < 16) }
    ensures { result ≡ cell_right longest (cell_at (cells_of cells.now i) k) }
{
    let at = i * 1040 + k * 65;
    let n = cells[at];
    (n <= longest) & zeros(cells, at + usize::from(n) + 1, at + 65)
}

// Whether queue `i`, which holds `h`, is in its one form.
pub fn in_form(cells: &[u8; 8320], i: usize, h: usize, longest: u8) -> bool
    requires { i < 8 }
    ensures { result ≡ row_right (cells_of cells.now i) h longest }
{
    if 16 < h {
        return false;
    }
    let mut ok = true;
    for k in 0..h {
        ok = cell_right(cells, i, k, longest) & ok;
    }
    ok & zeros(cells, i * 1040 + h * 65, i * 1040 + 1040)
}

// Whether every queue is in its one form. Where none holds a message that is one pass over all bytes.
pub fn all_in_form(queues: &Queues) -> bool
    ensures { result ≡ messages_right queues.now }
{
    if zeros(&queues.held, 0, 8) {
        return zeros(&queues.cells, 0, 8320);
    }
    let mut ok = true;
    for i in 0..8 {
        let held = usize::from(queues.held[i]);
        ok = in_form(&queues.cells, i, held, queues.limits[2 * i + 1]) & ok;
    }
    ok
}
