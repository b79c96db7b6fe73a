// What the functions that C calls do; `exports_c` exports them. A slice is a pointer and then its length, `&mut [usize; 1]` a pointer to one
// number, and a status is told as its number. (include/dryswennol.h.)
#![tactic(auto)]

ghost use Rattle.std.specs.Prelude.{◌≡◌};
ghost use Rattle.scope.specs.Listing.{listing};
ghost use Rattle.watching.specs.Watched.{Gridded};
ghost use Rattle.replies.specs.Steps.{steps_on, freshes};
ghost use Rattle.lines.specs.Lines.{line_in, tells};

use scope::Request;

// The image of the fresh state, at the start of `image`: 0, or 19 with that of priority 0; 31 and nothing where `image` is too short.
#[unsafe(no_mangle)]
pub extern "C" fn dryswennol_fresh(priority: u32, image: &mut [u8]) -> u32
    ensures { (record { bytes = image.new; status = result }) ≡ freshes priority image.old }
{
    stepping::fresh(priority, image)
}

// The step of the state that stands in `image`, which is changed in place, and its answer; a refused step leaves every byte of the image.
#[unsafe(no_mangle)]
pub extern "C" fn dryswennol_step(
    image: &mut [u8],
    message: &[u8],
    answer: &mut [u8; 236],
    call: u32,
    mark: u32,
    a: u32,
    b: u32,
    c: u32,
    d: u32,
    e: u32,
) -> u32
    ensures { (record { image = image.new; answer = answer.new; status = result })
        ≡ steps_on image.old call mark a b c d e message.now }
{
    let request = Request {
        call,
        mark,
        a,
        b,
        c,
        d,
        e,
    };
    stepping::step(image, message, answer, &request)
}

// The line of the answer that stands in the bytes, numbered, at the start of `out`: 0; or 31 and nothing, where it does not fit there. Its
// length is told in either case.
#[unsafe(no_mangle)]
pub extern "C" fn dryswennol_line(
    number: u32,
    answer: &[u8; 236],
    out: &mut [u8],
    length: &mut [usize; 1],
) -> u32
    ensures { (record { bytes = out.new; needed = length.new; status = result }) ≡ tells (line_in number answer.now) out.old }
{
    lines::line(number, answer, out, length)
}

// The script's listing in the same way.
#[unsafe(no_mangle)]
pub extern "C" fn dryswennol_listing(script: &[u8], out: &mut [u8], length: &mut [usize; 1]) -> u32
    ensures { (record { bytes = out.new; needed = length.new; status = result }) ≡ tells (listing script.now) out.old }
{
    listings::told(script, out, length)
}

// The grant grid after the script, cleared before its first record: 512 and the cells, row after row, or 0 and nothing.
#[unsafe(no_mangle)]
pub extern "C" fn dryswennol_grid(script: &[u8], cells: &mut [u16]) -> usize
    ensures { Gridded script.now cells.old cells.new result }
{
    watching::grid_of(script, cells)
}
