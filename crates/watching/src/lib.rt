// Plays a script and keeps the grant grid beside the state: the grid as `grid` promises it, over the kernel's step. The state is kept
// here and lent to each step. (specs/Watched.antt.)
// (A cast by `as` stands where Rust has no `From`; each is proved to lose nothing.)
#![tactic(auto)]

ghost use Rattle.std.specs.Prelude.{◌≡◌, ◌≤◌, length};
ghost use Rattle.scope.specs.Script.{first_priority};
ghost use Rattle.scope.specs.Fresh.{fresh_state};
ghost use Rattle.watching.specs.Watched.{end_of, grid_of, Shows, Gridded};

use answers::Notices;
use scope::State;
use scripts::Script;

// The grid's rows, one after the other.
fn put_cells(g: &[[u16; 16]; 32], cells: &mut [u16])
    requires { 512 ≤ length cells.old }
    ensures { Shows g.now cells.old cells.new }
{
    for (t, row) in g.iter().enumerate() {
        cells[t * 16..t * 16 + 16].copy_from_slice(row);
    }
}

// Plays a script's records from its fresh state, which is changed where it lies. Answers the grid, cleared before the first of them.
fn play_records(script: &Script, s: &mut State) -> [[u16; 16]; 32]
    requires { s.old ≡ fresh_state (first_priority script.now.bytes.now) }
    ensures state { s.new ≡ end_of script.now.bytes.now }
    ensures grid { result ≡ grid_of script.now.bytes.now }
{
    let first = script.begin();
    let mut g = grid::clear();
    let mut notices = Notices::new();
    for k in 0..first.left as usize {
        let at = first.at + 28 * k;
        let request = text::read_record(script.bytes, at);
        let message = text::message_at(script.bytes, at);
        let caller = answers::running_of(&*s);
        let outcome = performing::perform(s, &mut notices, &message, &request);
        // (The kit proves no call that is assigned right to an array.)
        let next = grid::keep(g, caller, request.call, request.a, outcome, &notices.wakes);
        g = next;
    }
    g
}

// Plays a script from its fresh state, the grid cleared before the first record. Answers the state at its end; the grid is put into
// the first 512 cells, row after row.
pub fn watch(script: &Script, cells: &mut [u16]) -> State
    requires { 512 ≤ length cells.old }
    ensures { (result ≡ end_of script.now.bytes.now) × Shows (grid_of script.now.bytes.now) cells.old cells.new }
{
    let mut s = script.first_state();
    let g = play_records(script, &mut s);
    put_cells(&g, cells);
    s
}

// The same for any bytes and any cells: 512 cells are written, or none where the bytes are no script or the cells are fewer.
pub fn grid_of(script: &[u8], cells: &mut [u16]) -> usize
    ensures { Gridded script.now cells.old cells.new result }
{
    let Some(script) = Script::new(script) else {
        return 0;
    };
    if cells.len() < 512 {
        return 0;
    }
    watch(&script, cells);
    512
}
