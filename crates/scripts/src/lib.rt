// Where a script has got to, and where it begins; what playing it in parts keeps and gives is said in specs/, and its laws are in proofs/.
// (scope's specs/Script.antt and Listing.antt.)
// (A cast by `as` stands where Rust has no `From`; each is proved to lose nothing.)
#![tactic(auto)]

ghost use Rattle.std.specs.Prelude.{◌≡◌, true, false, IfSome, IfNone};
ghost use Rattle.scope.specs.Script.{is_script, first_priority};
ghost use Rattle.scope.specs.Fresh.{fresh_state};
ghost use Rattle.scripts.specs.Place.{point_at, Begun};

use scope::State;

// Where a script has got to, beside the state: how many records are left, the number of the next and where it starts.
#[derive(Clone, Copy)]
pub struct Place {
    pub left: u32,
    pub number: u32,
    pub at: usize,
}

// The place after a part of the listing, and how many bytes of it were written.
#[derive(Clone, Copy)]
pub struct Part {
    pub place: Place,
    pub written: usize,
}

// The bytes of a script: no refusal of it applies to them.
#[derive(Clone, Copy)]
pub struct Script<'a> {
    pub bytes: &'a [u8],
    ghost tested: { is_script bytes.now ≡ true },
}

impl<'a> Script<'a> {
    // The bytes as a script, or nothing where they are none.
    pub fn new(bytes: &'a [u8]) -> Option<Script<'a>>
        ensures bytes { IfSome result (λ script. script.bytes.now ≡ bytes.now) }
        ensures refused { IfNone result (is_script bytes.now ≡ false) }
    {
        if text::is_script(bytes) {
            Some(Script { bytes })
        } else {
            None
        }
    }

    // The state before the first record.
    pub fn first_state(&self) -> State
        ensures { result ≡ fresh_state (first_priority self.now.bytes.now) }
    {
        fresh::fresh_value(text::read_number(self.bytes, 8))
    }

    // The place before the first record.
    pub fn begin(&self) -> Place
        ensures { Begun self.now.bytes.now (point_at (fresh_state (first_priority self.now.bytes.now)) result) }
    {
        Place {
            left: text::read_number(self.bytes, 0),
            number: 1,
            at: text::read_number(self.bytes, 4) as usize,
        }
    }
}

// The state before the first record.
pub fn first_state(script: &[u8]) -> State
    requires { is_script script.now ≡ true }
    ensures { result ≡ fresh_state (first_priority script.now) }
{
    Script { bytes: script }.first_state()
}

// The place before the first record.
pub fn begin(script: &[u8]) -> Place
    requires { is_script script.now ≡ true }
    ensures { Begun script.now (point_at (fresh_state (first_priority script.now)) result) }
{
    Script { bytes: script }.begin()
}
