// Numbers out of a script's bytes, and an answer's line into a listing's. (scope's specs/Script.antt and Listing.antt.)
// (A cast by `as` stands where Rust has no `From`; each is proved to lose nothing.)
#![tactic(auto)]

ghost use Rattle.std.specs.Prelude.{◌≡◌, false, List, [], ◌∷◌, ◌++◌, ℕ, ◌+◌, ◌*◌, ◌%◌, ◌≤◌, ◌<◌, length, take, IsTrue, ◌↔◌};
ghost use Rattle.scope.specs.Script.{number32, message_at, is_script};
ghost use Rattle.text.specs.Records.{record_at};
ghost use Rattle.text.specs.Lines.{last_two, longest_line, reply_by};
ghost use Rattle.text.specs.Writers.{Wrote};
ghost use Rattle.scope.specs.Replies.{wakes_from};
ghost use Rattle.scope.specs.Listing.{decimal, signed, field, wake_fields, delivery_field, line_of, refused_line};

use answers::Outcome;
use scope::Request;

// The little-endian number in the four bytes at a place.
#[tactic(auto, unfolding(scope::specs::Script::number32))]
pub fn read_number(s: &[u8], at: usize) -> u32
    requires { at + 4 ≤ length s.now }
    ensures { result ≡ number32 s.now at }
{
    u32::from_le_bytes([s[at], s[at + 1], s[at + 2], s[at + 3]])
}

// The record at a place: "call, caller mark, five arguments".
pub fn read_record(s: &[u8], at: usize) -> Request
    requires { at + 28 ≤ length s.now }
    ensures { result ≡ record_at s.now at }
{
    Request {
        call: read_number(s, at),
        mark: read_number(s, at + 4),
        a: read_number(s, at + 8),
        b: read_number(s, at + 12),
        c: read_number(s, at + 16),
        d: read_number(s, at + 20),
        e: read_number(s, at + 24),
    }
}

// The message that the record at a place lends: "In a script the three arguments left are the first 12 bytes, the rest zeros".
#[tactic(auto, unfolding(scope::specs::Script::message_at))]
pub fn message_at(s: &[u8], at: usize) -> [u8; 64]
    requires { at + 28 ≤ length s.now }
    ensures { result ≡ message_at s.now at }
{
    let mut message = [0; 64];
    message[..12].copy_from_slice(&s[at + 16..at + 28]);
    message
}

// Whether the bytes are a script, and no refusal of it applies.
#[tactic(auto, unfolding(scope::specs::Script::is_script))]
pub fn is_script(s: &[u8]) -> bool
    ensures { result ≡ is_script s.now }
{
    if 65536 < s.len() {
        return false;
    }
    if s.len() < 16 {
        return false;
    }
    let count = u64::from(read_number(s, 0));
    let offset = u64::from(read_number(s, 4));
    if offset < 16 {
        return false;
    }
    if (s.len() as u64) < offset + 28 * count {
        return false;
    }
    if 15 < read_number(s, 8) {
        return false;
    }
    read_number(s, 12) == 0
}

// A number's last digit, as a sign.
fn last_digit(n: u32) -> u8
    ensures { result ≡ 48 + n % 10 }
{
    (48 + n % 10) as u8
}

// Lent bytes that a text is written into, one piece behind the other: those before `at` are written. (Not by std's `write!`: what that
// promises of the bytes holds where it answers Ok, and nothing promises that it does where there is room. A line has to be written.)
#[derive(Drop)]
pub struct Writer<'a> {
    pub bytes: &'a mut [u8],
    pub at: usize,
}

impl<'a> Writer<'a> {
    // One byte.
    fn byte(&mut self, b: u8)
        requires { self.old.at + 1 ≤ length self.old.bytes.now }
        ensures { Wrote self.old self.new (b ∷ []) }
    {
        self.bytes[self.at] = b;
        self.at += 1;
    }

    // The last two digits of a number.
    fn two_digits(&mut self, n: u32)
        requires { self.old.at + 2 ≤ length self.old.bytes.now }
        ensures { Wrote self.old self.new (last_two n) }
    {
        self.byte(last_digit(n / 10));
        self.byte(last_digit(n));
    }

    // A number's decimal digits. Most numbers of a listing have one: those take no call.
    fn decimal(&mut self, n: u32)
        requires { self.old.at + 10 ≤ length self.old.bytes.now }
        ensures text { Wrote self.old self.new (decimal n) }
        ensures short { self.new.at ≤ self.old.at + 10 }
    {
        if n < 10 {
            return self.byte(last_digit(n));
        }
        self.at = put_decimal(self.bytes, self.at, n);
    }

    // A space and a number.
    fn field(&mut self, n: u32)
        requires { self.old.at + 11 ≤ length self.old.bytes.now }
        ensures text { Wrote self.old self.new (field (decimal n)) }
        ensures short { self.new.at ≤ self.old.at + 11 }
    {
        self.byte(b' ');
        self.decimal(n);
    }

    // The same with a minus sign where the number is negative. (A flag and a number, as in `Outcome`, which the definitions see so.)
    #[tactic(auto, unfolding(scope::specs::Listing::signed, scope::specs::Choice::pick))]
    fn signed_field(&mut self, negative: bool, n: u32)
        requires { self.old.at + 12 ≤ length self.old.bytes.now }
        ensures text { Wrote self.old self.new (field (signed negative n)) }
        ensures short { self.new.at ≤ self.old.at + 12 }
    {
        if !negative {
            return self.field(n);
        }
        self.byte(b' ');
        self.byte(b'-');
        self.decimal(n);
    }

    // A wake: a space, the task, a colon and its status.
    fn wake(&mut self, task: u32, why: u32)
        requires { self.old.at + 22 ≤ length self.old.bytes.now }
        ensures text { Wrote self.old self.new (field (decimal task ++ (58 ∷ decimal why))) }
        ensures short { self.new.at ≤ self.old.at + 22 }
    {
        self.field(task);
        self.byte(b':');
        self.decimal(why);
    }

    // The wakes of some tasks, in order.
    fn wakes(&mut self, tasks: &[u32], why: u32)
        requires { self.old.at + 22 * length tasks.now ≤ length self.old.bytes.now }
        ensures text { Wrote self.old self.new (wake_fields (wakes_from (length tasks.now) 0 tasks.now why)) }
        ensures short { self.new.at ≤ self.old.at + 22 * length tasks.now }
    {
        for task in tasks {
            self.wake(*task, why);
        }
    }

    // A delivery: a colon and the message's length, behind its wake. (A flag and a number: as above.)
    #[tactic(auto, unfolding(scope::specs::Listing::delivery_field, scope::specs::Choice::pick))]
    fn delivery(&mut self, delivers: bool, n: u32)
        requires { self.old.at + 11 ≤ length self.old.bytes.now }
        ensures text { Wrote self.old self.new (delivery_field delivers n) }
        ensures short { self.new.at ≤ self.old.at + 11 }
    {
        if delivers {
            self.byte(b':');
            self.decimal(n);
        }
    }

    // Whether there is room for the longest line.
    pub fn has_room(&self) -> bool
        ensures { IsTrue result ↔ (self.now.at + longest_line ≤ length self.now.bytes.now) }
    {
        self.at <= self.bytes.len() && LONGEST_LINE <= self.bytes.len() - self.at
    }

    // An answer's line. The answer is an outcome, the wake list, the running task and the message shown: no line tells more of the
    // state, and none tells the message, so its promise holds of any.
    #[inline(always)]
    #[tactic(auto, unfolding(scope::specs::Listing::line_of))]
    pub fn line(&mut self, number: u32, o: &Outcome, wakes: &[u32; 32], running: u32)
        requires { (self.old.at + longest_line ≤ length self.old.bytes.now) × (o.now.woken ≤ 32) }
        ensures { (shown : List ℕ) → Wrote self.old self.new (line_of number (reply_by wakes.now shown o.now running)) }
    {
        let values = o.values;
        self.decimal(number);
        self.field(o.status);
        self.field(values[0]);
        self.signed_field(o.negative, values[1]);
        self.field(values[2]);
        self.field(values[3]);
        self.field(running);
        self.wakes(&wakes[..o.woken], o.why);
        self.delivery(o.delivers, o.length);
        self.byte(b'\n');
    }

    // The bytes of a text.
    fn text(&mut self, text: &[u8])
        requires { self.old.at + length text.now ≤ length self.old.bytes.now }
        ensures { Wrote self.old self.new text.now }
    {
        let end = self.at + text.len();
        self.bytes[self.at..end].copy_from_slice(text);
        self.at = end;
    }
}

// Puts a number's decimal digits at a place, two at a time behind the first one or two, and answers the place after them. (No method: a
// call that is lent a writer keeps it in memory; so a listing's writer stays in registers.)
pub fn put_decimal(out: &mut [u8], at: usize, n: u32) -> usize
    requires { at + length (decimal n) ≤ length out.old }
    ensures { (result ≡ at + length (decimal n)) × (take result out.new ≡ take at out.old ++ decimal n) }
{
    if n < 10 {
        let mut writer = Writer { bytes: out, at };
        writer.byte(last_digit(n));
        return writer.at;
    }
    if n < 100 {
        let mut writer = Writer { bytes: out, at };
        writer.two_digits(n);
        return writer.at;
    }
    let before = put_decimal(out, at, n / 100);
    let mut writer = Writer {
        bytes: out,
        at: before,
    };
    writer.two_digits(n);
    writer.at
}

// The longest line (specs/Lines.antt).
pub const LONGEST_LINE: usize = 793;

// Puts an answer's line at a place, and answers the place after it: a writer's line for who lends bytes only (`lines`, for C).
pub fn put_line(
    out: &mut [u8],
    at: usize,
    number: u32,
    o: Outcome,
    wakes: &[u32; 32],
    running: u32,
) -> usize
    requires { (at + longest_line ≤ length out.old) × (o.woken ≤ 32) }
    ensures { (shown : List ℕ) → (result ≡ at + length (line_of number (reply_by wakes.now shown o running)))
        × (take result out.new ≡ take at out.old ++ line_of number (reply_by wakes.now shown o running)) }
{
    let mut writer = Writer { bytes: out, at };
    writer.line(number, &o, wakes, running);
    writer.at
}

// Puts the one line of a script that is refused, and answers the place after it.
#[tactic(auto, unfolding(scope::specs::Listing::refused_line))]
pub fn put_refused(out: &mut [u8], at: usize) -> usize
    requires { at + 15 ≤ length out.old }
    ensures { (result ≡ at + length refused_line) × (take result out.new ≡ take at out.old ++ refused_line) }
{
    let mut writer = Writer { bytes: out, at };
    writer.text(b"script refused\n");
    writer.at
}
