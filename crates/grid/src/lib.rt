// The grant grid, 32 rows of 16 columns: who was granted what, kept beside the state. The kernel never sees it. By the project's rule it
// is a `[[u16; 16]; 32]` that is passed and returned by value, with one cell, row or column changed, and it is filled from a lent slice of
// grant records, each handed by value to the change of one cell. (specs/Grid.antt, Keeping.antt and Filling.antt.)
// (A cast by `as` stands where Rust has no `From`; each is proved to lose nothing.)
// (An outcome's status, and why tasks were woken, are numbers, as the definitions of an answer have them.)
#![tactic(auto, unfolding(scope::specs::Choice::pick, crate::specs::Grid::inside, crate::specs::Grid::granted, crate::specs::Grid::row_cleared, crate::specs::Grid::column_cleared, crate::specs::Keeping::released, crate::specs::Keeping::kept, crate::specs::Filling::filled))]

ghost use Rattle.std.specs.Prelude.{◌≡◌, ◌%◌, get_or};
ghost use Rattle.scope.specs.Replies.{wakes_from};
ghost use Rattle.grid.specs.Grid.{cleared, granted, row_cleared, column_cleared};
ghost use Rattle.grid.specs.Keeping.{released, kept};
ghost use Rattle.grid.specs.Filling.{BAD_RECORD, within, status_of, fill_status, counted_one, filled};

use answers::Outcome;
use rows::{Call, SemaphoreCall, TaskCall};

// A grid of zeros.
pub fn clear() -> [[u16; 16]; 32]
    ensures { result ≡ cleared }
{
    [[0; 16]; 32]
}

// One grant more to the task's slot from the semaphore's, stopping at 65,535.
pub fn grant_cell(mut g: [[u16; 16]; 32], task: usize, semaphore: usize) -> [[u16; 16]; 32]
    ensures { result ≡ granted g task semaphore }
{
    if task < 32 && semaphore < 16 {
        g[task][semaphore] = g[task][semaphore].saturating_add(1);
    }
    g
}

// The grid with a task slot's row emptied.
pub fn clear_row(mut g: [[u16; 16]; 32], task: usize) -> [[u16; 16]; 32]
    ensures { result ≡ row_cleared g task }
{
    if task < 32 {
        g[task] = [0; 16];
    }
    g
}

// The grid with a semaphore slot's column emptied.
pub fn clear_column(mut g: [[u16; 16]; 32], semaphore: usize) -> [[u16; 16]; 32]
    ensures { result ≡ column_cleared g semaphore }
{
    if 16 <= semaphore {
        return g;
    }
    for row in g.iter_mut() {
        row[semaphore] = 0;
    }
    g
}

// "An identifier is serial × 64 + slot."
fn slot(id: u32) -> usize
    ensures { result ≡ id % 64 }
{
    (id % 64) as usize
}

// A release from the semaphore's slot, by its outcome and its wake list: it wakes one task at most, and only with OK is that a grant.
fn release(g: [[u16; 16]; 32], semaphore: usize, o: Outcome, wakes: &[u32; 32]) -> [[u16; 16]; 32]
    ensures { result ≡ released g semaphore (wakes_from o.woken 0 wakes.now o.why) }
{
    if o.woken == 0 || o.why != scope::OK {
        return g;
    }
    grant_cell(g, slot(wakes[0]), semaphore)
}

// The grid after a call of the task `caller` with first argument `a`, by its outcome and its wake list.
pub fn keep(
    g: [[u16; 16]; 32],
    caller: u32,
    call: u32,
    a: u32,
    o: Outcome,
    wakes: &[u32; 32],
) -> [[u16; 16]; 32]
    ensures { result ≡ kept g caller call a o.status (get_or o.values 0 0) (wakes_from o.woken 0 wakes.now o.why) }
{
    if o.status != scope::OK {
        return g;
    }
    match Call::from_number(call) {
        Some(Call::Task(TaskCall::Create)) => clear_row(g, slot(o.values[0])),
        Some(Call::Semaphore(SemaphoreCall::Create)) => clear_column(g, slot(o.values[0])),
        Some(Call::Semaphore(SemaphoreCall::Claim)) => grant_cell(g, slot(caller), slot(a)),
        Some(Call::Semaphore(SemaphoreCall::Release)) => release(g, slot(a), o, wakes),
        _ => g,
    }
}

// A grant record: "one task slot and one semaphore slot".
#[derive(Clone, Copy, PartialEq, Eq, Debug, Drop)]
pub struct Grant {
    pub task: u32,
    pub semaphore: u32,
}

impl Grant {
    // Whether both slots are in their tables.
    fn is_within(self) -> bool
        ensures { result ≡ within self }
    {
        self.task < 32 && self.semaphore < 16
    }
}

// Why a list of grant records is refused. No call of the kernel gives this status, so it stands here.
#[derive(Clone, Copy, PartialEq, Eq, Debug, Drop)]
pub enum Refusal {
    // "33 BAD_RECORD": a record names a slot outside its table.
    BadRecord = 33,
}

impl Refusal {
    // The status that tells it.
    pub fn number(self) -> u32
        ensures { result ≡ BAD_RECORD }
    {
        self as u32
    }
}

// "33 BAD_RECORD if any slot is outside its table", else OK.
pub fn fill_status(list: &[Grant]) -> Result<(), Refusal>
    ensures { status_of result ≡ fill_status list.now }
{
    for grant in list {
        if !grant.is_within() {
            return Err(Refusal::BadRecord);
        }
    }
    Ok(())
}

fn count_one(g: [[u16; 16]; 32], grant: Grant) -> [[u16; 16]; 32]
    ensures { result ≡ counted_one g grant }
{
    grant_cell(g, grant.task as usize, grant.semaphore as usize)
}

// The grid with the records' grants added, or as given where a record is refused: all are tested before any counts.
pub fn fill(list: &[Grant], g: [[u16; 16]; 32]) -> [[u16; 16]; 32]
    ensures { result ≡ filled list.now g }
{
    if fill_status(list).is_err() {
        return g;
    }
    let mut filled = g;
    for grant in list {
        // (The kit proves no call that is assigned right to an array.)
        let more = count_one(filled, *grant);
        filled = more;
    }
    filled
}
