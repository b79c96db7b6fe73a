// Columns of an image, put and taken: little-endian, a slot's numbers every `stride` bytes. (fields' specs/Columns.antt.)
// (A cast by `as` stands where Rust has no `From`; each is proved to lose nothing.)
#![tactic(auto, unfolding(fields::specs::Columns::put_column, fields::specs::Columns::take_column, fields::specs::Tests::only_flags))]

ghost use Rattle.std.specs.Prelude.{◌≡◌, List, map, ℕ, refl, ◌+◌, ◌*◌, ◌^◌, ◌≤◌, ◌<◌, length};
ghost use Rattle.std.proofs.Common.{lit≤};
ghost use Rattle.std.proofs.lemmas.List.{map-id};
ghost use Rattle.std.proofs.lemmas.List.Edits.{sets};
ghost use Rattle.fields.specs.Numbers.{le, number, bit, is_on};
ghost use Rattle.fields.specs.Columns.{part, put_column, take_column, Room};
ghost use Rattle.fields.specs.Tests.{only_flags, Tells};

// What a column holds, a value a slot: each stands in the image as a number of `BYTES` bytes.
pub trait Entry: Copy {
    const BYTES: usize;

    ghost BYTES: { ℕ };

    // The number of a value, and the value that a number is read as.
    ghost number: { Self → ℕ };

    ghost value: { ℕ → Self };

    // The same of a whole column.
    ghost numbers: { List Self → List ℕ };

    ghost values: { List ℕ → List Self };

    fn to_number(self) -> u64
        ensures { result ≡ number self };

    fn from_number(x: u64) -> Self
        requires { x < 256 ^ BYTES }
        ensures { result ≡ value x };

    ghost fits: { BYTES ≤ 8 };

    ghost each_number: { (xs : List Self) → map number xs ≡ numbers xs };

    ghost each_value: { (xs : List ℕ) → map value xs ≡ values xs };
}

// (The instances are alike, a line or two each: an impl written by a macro of ours is refused.)
impl Entry for u8 {
    const BYTES: usize = 1;

    ghost BYTES = { 1 };

    ghost number = { λ x. x };

    ghost value = { λ x. x };

    ghost numbers = { λ xs. xs };

    ghost values = { λ xs. xs };

    fn to_number(self) -> u64 {
        u64::from(self)
    }

    fn from_number(x: u64) -> u8 {
        x as u8
    }

    ghost fits = { lit≤ tt };

    ghost each_number = { λ xs. map-id xs };

    ghost each_value = { λ xs. map-id xs };
}

impl Entry for u16 {
    const BYTES: usize = 2;

    ghost BYTES = { 2 };

    ghost number = { λ x. x };

    ghost value = { λ x. x };

    ghost numbers = { λ xs. xs };

    ghost values = { λ xs. xs };

    fn to_number(self) -> u64 {
        u64::from(self)
    }

    fn from_number(x: u64) -> u16 {
        x as u16
    }

    ghost fits = { lit≤ tt };

    ghost each_number = { λ xs. map-id xs };

    ghost each_value = { λ xs. map-id xs };
}

impl Entry for u32 {
    const BYTES: usize = 4;

    ghost BYTES = { 4 };

    ghost number = { λ x. x };

    ghost value = { λ x. x };

    ghost numbers = { λ xs. xs };

    ghost values = { λ xs. xs };

    fn to_number(self) -> u64 {
        u64::from(self)
    }

    fn from_number(x: u64) -> u32 {
        x as u32
    }

    ghost fits = { lit≤ tt };

    ghost each_number = { λ xs. map-id xs };

    ghost each_value = { λ xs. map-id xs };
}

impl Entry for u64 {
    const BYTES: usize = 8;

    ghost BYTES = { 8 };

    ghost number = { λ x. x };

    ghost value = { λ x. x };

    ghost numbers = { λ xs. xs };

    ghost values = { λ xs. xs };

    fn to_number(self) -> u64 {
        self
    }

    fn from_number(x: u64) -> u64 {
        x
    }

    ghost fits = { lit≤ tt };

    ghost each_number = { λ xs. map-id xs };

    ghost each_value = { λ xs. map-id xs };
}

// A yes or no is 1 or 0; read back, any number but 0 is a yes.
impl Entry for bool {
    const BYTES: usize = 1;

    ghost BYTES = { 1 };

    ghost number = { bit };

    ghost value = { is_on };

    ghost numbers = { map bit };

    ghost values = { map is_on };

    fn to_number(self) -> u64 {
        u64::from(self)
    }

    fn from_number(x: u64) -> bool {
        x != 0
    }

    ghost fits = { lit≤ tt };

    ghost each_number = { λ xs. refl };

    ghost each_value = { λ xs. refl };
}

// The `w` low bytes of a number, at `at`: one function for every width, which the compiler turns into one store.
fn put(s: &mut [u8], at: usize, w: usize, x: u64)
    requires { (at + w ≤ length s.old) × (w ≤ 8) }
    ensures { s.new ≡ sets s.old at (le w x) }
{
    s[at..at + w].copy_from_slice(&x.to_le_bytes()[..w]);
}

// The number that the `w` bytes at `at` are. (A loop: the library reads a number from an array of just its bytes, and here the width is a value.)
fn get(s: &[u8], at: usize, w: usize) -> u64
    requires { (at + w ≤ length s.now) × (w ≤ 8) }
    ensures { (result ≡ number w s.now at) × (result < 256 ^ w) }
{
    let mut x: u64 = 0;
    for k in (0..w).rev() {
        x = x * 256 + u64::from(s[at + k]);
    }
    x
}

// A column put: the number of each value, in its slot. (Place and stride stay two numbers, as docs/IMAGE.md has them: a struct of the two would be
// written out at each call, and make none plainer.)
pub fn put_column<T: Entry>(s: &mut [u8], at: usize, stride: usize, xs: &[T])
    requires { Room T.BYTES stride (length xs.now) at (length s.old) }
    ensures { s.new ≡ put_column T.BYTES 1 stride (length xs.now) (T.numbers xs.now) at s.old }
{
    for (i, x) in xs.iter().enumerate() {
        put(s, at + i * stride, T::BYTES, x.to_number());
    }
}

// A column taken.
pub fn take_column<T: Entry>(s: &[u8], at: usize, stride: usize, xs: &mut [T])
    requires { Room T.BYTES stride (length xs.old) at (length s.now) }
    ensures { xs.new ≡ T.values (take_column T.BYTES 1 stride (length xs.old) s.now at) }
{
    for (i, x) in xs.iter_mut().enumerate() {
        *x = T::from_number(get(s, at + i * stride, T::BYTES));
    }
}

// Whether a column is these values. (All are looked at: a loop without a way out is fast.)
pub fn is_column<T: Entry>(s: &[u8], at: usize, stride: usize, xs: &[T]) -> bool
    requires { Room T.BYTES stride (length xs.now) at (length s.now) }
    ensures { Tells result (take_column T.BYTES 1 stride (length xs.now) s.now at ≡ T.numbers xs.now) }
{
    let mut ok = true;
    for (i, x) in xs.iter().enumerate() {
        ok &= get(s, at + i * stride, T::BYTES) == x.to_number();
    }
    ok
}

// Whether each byte of a column is 0 or 1. (All are looked at: bytes that are refused are rare, and a loop without a way out is fast.)
pub fn flags_only(s: &[u8], at: usize, stride: usize, n: usize) -> bool
    requires { Room 1 stride n at (length s.now) }
    ensures { result ≡ only_flags (take_column 1 1 stride n s.now at) }
{
    let mut ok = true;
    for i in 0..n {
        ok &= s[at + i * stride] <= 1;
    }
    ok
}

// `n` bytes from `start` on go to `at`: a block move.
pub fn copy(s: &mut [u8], at: usize, xs: &[u8], start: usize, n: usize)
    requires { (at + n ≤ length s.old) × (start + n ≤ length xs.now) }
    ensures { s.new ≡ sets s.old at (part n start xs.now) }
{
    s[at..at + n].copy_from_slice(&xs[start..start + n]);
}

// A column of `many` bytes a slot put.
pub fn put_rows(s: &mut [u8], at: usize, stride: usize, rows: usize, many: usize, xs: &[u8])
    requires { (length xs.now ≡ rows * many) × Room many stride rows at (length s.old) }
    ensures { s.new ≡ put_column 1 many stride rows xs.now at s.old }
{
    for i in 0..rows {
        copy(s, at + i * stride, xs, i * many, many);
    }
}

// Such a column taken.
pub fn take_rows(s: &[u8], at: usize, stride: usize, rows: usize, many: usize, xs: &mut [u8])
    requires { (length xs.old ≡ rows * many) × Room many stride rows at (length s.now) }
    ensures { xs.new ≡ take_column 1 many stride rows s.now at }
{
    for i in 0..rows {
        copy(xs, i * many, s, at + i * stride, many);
    }
}
