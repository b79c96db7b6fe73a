// The order of a pool's free buffers: its row of 64 places, by buffer, out of the places of all pools. (scope's specs/Places.antt.)
// A row is copied out and in, and the loops over it have no way out in their middle: the compiler takes sixteen places at a time.
// `as` narrows a number that is proved to fit: `try_from` would make a Result that is never an Err.
// (Each function takes any bytes that have the row, and asks that they do. The loops go by index where a buffer's number is its place.)
#![tactic(auto, unfolding(scope::specs::Choice::pick))]

ghost use Rattle.std.specs.Prelude.{◌≡◌, ◌+◌, ◌-◌, ◌*◌, ◌%◌, ◌^◌, ◌<◌, ◌≤◌, length, get_or, eqb, ltb, leb, MatchOption};
ghost use Rattle.scope.specs.Choice.{pick, every, bits};
ghost use Rattle.scope.specs.Areas.{is_free};
ghost use Rattle.scope.specs.Places.{row_of, with_row, longest_free, first_leaves, joins_last, new_row};
ghost use Rattle.scope.specs.Rules.{order_right};

// The row of pool `i`.
pub fn row_of(places: &[u8], i: usize) -> [u8; 64]
    requires { i * 64 + 64 ≤ length places.now }
    ensures { result ≡ row_of places.now i }
{
    let mut row = [0; 64];
    row.copy_from_slice(&places[i * 64..i * 64 + 64]);
    row
}

// Pool `i` gets another row.
pub fn put_row(places: &mut [u8], i: usize, row: [u8; 64])
    requires { i * 64 + 64 ≤ length places.old }
    ensures { places.new ≡ with_row places.old i row }
{
    places[i * 64..i * 64 + 64].copy_from_slice(&row);
}

// `k` where place `x` is the first, else 64.
fn if_first(x: u8, k: usize) -> u8
    requires { k < 64 }
    ensures { result ≡ pick (eqb x 1) k 64 }
{
    if x == 1 {
        return k as u8;
    }
    64
}

// "the buffer that has been free longest", if one is free. (The definition has 64 for none, as the loop does: one least number is taken
// of sixteen places at a time.)
pub fn longest_free(row: [u8; 64]) -> Option<u32>
    ensures { MatchOption result (64 ≡ longest_free row) (λ k. (k < 64) × (k ≡ longest_free row)) }
{
    let mut found: u8 = 64;
    for k in 0..64 {
        found = found.min(if_first(row[k], k));
    }
    if found < 64 {
        return Some(u32::from(found));
    }
    None
}

// The first leaves, and those behind it come forward.
pub fn first_leaves(row: [u8; 64]) -> [u8; 64]
    ensures { result ≡ first_leaves row }
{
    let mut places = row;
    for x in places.iter_mut() {
        *x = x.saturating_sub(1);
    }
    places
}

// Buffer `k` of pool `i` joins at the end, behind the `free` ones. One place is written, and none is read.
pub fn join_last(places: &mut [u8], i: usize, free: u32, k: usize)
    requires { (i * 64 + 64 ≤ length places.old) × (free ≤ 64) × (k < 64) }
    ensures { places.new ≡ with_row places.old i (joins_last (row_of places.old i) free k) }
{
    places[i * 64 + k] = (free + 1) as u8;
}

// The place of buffer `k` of `n` in a new pool.
fn new_place(k: usize, n: usize) -> u8
    requires { k < 64 }
    ensures { result ≡ pick (ltb k n) (k + 1) 0 }
{
    if k < n {
        return (k + 1) as u8;
    }
    0
}

// "in a new pool, ascending addresses"
pub fn new_row(n: usize) -> [u8; 64]
    ensures { result ≡ new_row n }
{
    let mut row = [0; 64];
    for k in 0..64 {
        row[k] = new_place(k, n);
    }
    row
}

// Whether no place of pool `i`'s row is above `most`. The row is read where it lies.
fn none_above(places: &[u8], i: usize, most: u8) -> bool
    requires { i * 64 + 64 ≤ length places.now }
    ensures { result ≡ every (λ k. leb (get_or (row_of places.now i) k 0) most) 64 }
{
    let mut ok = true;
    for x in &places[i * 64..i * 64 + 64] {
        ok = (*x <= most) & ok;
    }
    ok
}

// 1 where a buffer has a place, else 0.
fn has_place(x: u8) -> u64
    ensures { result ≡ pick (ltb 0 x) 1 0 }
{
    u64::from(0 < x)
}

// The bit of place `x` in a word: that of place 64 is the one of 0, which a buffer without a place has.
fn place_bit(x: u8) -> u64
    ensures { result ≡ 2 ^ (x % 64) }
{
    1u64 << (u32::from(x) % 64)
}

// The word whose lowest `w` bits are set.
fn lowest(w: u32) -> u64
    requires { (1 ≤ w) × (w ≤ 64) }
    ensures { result ≡ 2 ^ w - 1 }
{
    u64::MAX >> (64 - w)
}

// The word of the free buffers, of `n`.
fn free_bits(out: u64, n: u32) -> u64
    requires { (1 ≤ n) × (n ≤ 64) }
    ensures { result ≡ bits (is_free out) n }
{
    let all = lowest(n);
    all - (out & all)
}

// The bits of the places up to `most`, and of 0: with fewer than 64 free buffers some buffer has no place.
fn bits_upto(most: u32) -> u64
    requires { most ≤ 64 }
    ensures { result ≡ 2 ^ pick (ltb most 64) (most + 1) 64 - 1 }
{
    if most < 64 {
        return lowest(most + 1);
    }
    lowest(64)
}

// "The order of free buffers joins the state, each free buffer once": of `n` buffers of pool `i`, those that are free have the places
// 1 to their number. One pass gathers who has a place and which places are taken: as many buffers as places, and none is empty.
pub fn order_right(places: &[u8], i: usize, out: u64, n: u32) -> bool
    requires { (i * 64 + 64 ≤ length places.now) × (n ≤ 64) }
    ensures { result ≡ order_right (row_of places.now i) out n }
{
    if n == 0 {
        return none_above(places, i, 0);
    }
    let base = i * 64;
    let mut taken: u64 = 0;
    let mut seen: u64 = 0;
    for k in (0..64).rev() {
        let x = places[base + k];
        taken = taken * 2 + has_place(x);
        seen = seen | place_bit(x);
    }
    let most = areas::free_of(out, n);
    let small = none_above(places, i, most as u8);
    let all = bits_upto(most);
    (taken == free_bits(out, n)) & ((seen == all) & small)
}
