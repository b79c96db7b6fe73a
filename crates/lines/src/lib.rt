// The line of an answer that stands in bytes, into a lent slice. (specs/Lines.antt.)
// (A cast by `as` stands where Rust has no `From`; each is proved to lose nothing.)
#![tactic(auto, unfolding(scope::specs::Choice::pick, crate::specs::Lines::at_most32, crate::specs::Lines::outcome_in))]

ghost use Rattle.std.specs.Prelude.{◌≡◌, ◌≤◌, length, take};
ghost use Rattle.lines.specs.Lines.{outcome_in, line_in, tells};

use answers::Outcome;

// C reads it as the status of a call (`exports_c`), so it is a number.
pub const NO_ROOM: u32 = 31;

// What stands in an answer's numbers: any number but 0 is a yes, and no more are woken than there are places. (A line tells nobody's slot.)
fn outcome_in(numbers: &[u32; 11]) -> Outcome
    ensures { result ≡ outcome_in numbers.now }
{
    Outcome {
        status: numbers[0],
        values: [numbers[1], numbers[2], numbers[3], numbers[4]],
        negative: numbers[5] != 0,
        woken: numbers[7].min(32) as usize,
        why: numbers[8],
        runs: 32,
        delivers: numbers[9] != 0,
        length: numbers[10],
    }
}

// The line of the answer that stands in the bytes, into bytes that have room for the longest.
fn put_line(number: u32, answer: &[u8; 236], line: &mut [u8; 793]) -> usize
    ensures { (result ≡ length (line_in number answer.now)) × (take result line.new ≡ line_in number answer.now)
        × (result ≤ length line.new) }
{
    let mut numbers = [0u32; 11];
    let mut wakes = [0u32; 32];
    columns::take_column(answer, 0, 4, &mut numbers);
    columns::take_column(answer, 44, 4, &mut wakes);
    let o = outcome_in(&numbers);
    text::put_line(line, 0, number, o, &wakes, numbers[6])
}

// The line of the answer that stands in the bytes, at the start of `out`, and 0; or 31 and nothing, where it does not fit there. Its length
// is told in either case.
pub fn line(number: u32, answer: &[u8; 236], out: &mut [u8], length: &mut [usize; 1]) -> u32
    ensures { (record { bytes = out.new; needed = length.new; status = result }) ≡ tells (line_in number answer.now) out.old }
{
    let mut line = [0u8; 793];
    let n = put_line(number, answer, &mut line);
    *length = [n];
    if out.len() < n {
        return NO_ROOM;
    }
    out[..n].copy_from_slice(&line[..n]);
    scope::OK
}
