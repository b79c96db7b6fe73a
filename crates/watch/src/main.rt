// Plays the script that standard input gives and writes its grant grid: a line for each cell that is not 0, by task slot and then
// by semaphore slot, with the identifiers of the latest objects there and the grants. Where there is a second argument, it writes the
// image of the state that the script leaves instead. Where there is an argument at all, the last word, `done` or `failed`, goes to
// descriptor 3, as the program `play` does it.
#![tactic(auto)]

ghost use Rattle.std.specs.Prelude.{◌≡◌, ◌<◌, length};

use inputs::Ended;
use scope::{Semaphores, State, Tasks};
use scripts::Script;
use std::io;
use std::io::Write;
use std::process::ExitCode;

// (Apart, so that the proof of the function that asks for them does not carry 512 cells.)
fn no_cells() -> [u16; 512]
    ensures { 512 ≡ length result }
{
    [0; 512]
}

// A cell's line; none where nothing was granted.
fn write_cell<W: Write>(to: &mut W, task: u32, semaphore: u32, grants: u16) -> io::Result<()> {
    if grants == 0 {
        return Ok(());
    }
    writeln!(to, "{task} {semaphore} {grants}")
}

// The cells of a task's row.
fn write_row<W: Write>(
    to: &mut W,
    task: u32,
    t: usize,
    m: &Semaphores,
    cells: &[u16; 512],
) -> io::Result<()>
    requires { t < 32 }
{
    for (i, serial) in m.serial.iter().enumerate() {
        let semaphore = tables::identifier(*serial, i);
        write_cell(to, task, semaphore, cells[t * 16 + i])?;
    }
    Ok(())
}

fn write_grid<W: Write>(
    to: &mut W,
    k: &Tasks,
    m: &Semaphores,
    cells: &[u16; 512],
) -> io::Result<()> {
    for (t, serial) in k.serial.iter().enumerate() {
        let task = tables::identifier(*serial, t);
        write_row(to, task, t, m, cells)?;
    }
    Ok(())
}

// "script refused" is a grid too, of one line; but such a script leaves no state, so no image.
fn write_refused(rt: &HostRuntime, wants_image: bool) -> Ended {
    if wants_image {
        let _ = rt
            .stderr()
            .write_all(b"play: script refused: it leaves no state\n");
        return Ended::Failed;
    }
    ended(rt.stdout().write_all(b"script refused\n"))
}

fn write_image<W: Write>(to: &mut W, s: State) -> io::Result<()> {
    let image = images::image_of(s);
    to.write_all(&image)
}

// (What cannot be written is not told: the last word says it.)
fn ended(written: io::Result<()>) -> Ended {
    match written {
        Ok(()) => Ended::Done,
        Err(e) if inputs::is_unread(&e) => Ended::Unread,
        Err(_) => Ended::Failed,
    }
}

fn watch_input(rt: &HostRuntime, wants_image: bool) -> Ended {
    let mut script = inputs::script_room();
    let got = inputs::read_input(&mut rt.stdin(), &mut script);
    if let Some(e) = got.failure {
        inputs::complain(&mut rt.stderr(), b"standard input", b": cannot be read", e);
        return Ended::Failed;
    }
    let Some(script) = Script::new(&script[..got.length]) else {
        return write_refused(rt, wants_image);
    };
    let mut cells = no_cells();
    let s = watching::watch(&script, &mut cells);
    if wants_image {
        return ended(write_image(&mut rt.stdout(), s));
    }
    ended(write_grid(&mut rt.stdout(), &s.tasks, &s.semaphores, &cells))
}

fn main(rt: HostRuntime) -> ExitCode {
    let ended = watch_input(&rt, inputs::has_argument(&rt, 2));
    inputs::leave(&rt, ended, inputs::has_argument(&rt, 1))
}
