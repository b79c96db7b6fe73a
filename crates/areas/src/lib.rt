// Areas of memory and the buffers in them, on numbers alone (scope's specs/Areas.antt); then whether an area overlaps a live
// pool's, and whether all pools are apart (scope's specs/Pools.antt and specs/Rules.antt).
// `as` narrows a number that is proved to fit: `try_from` would make a Result that is never an Err.
#![tactic(auto, unfolding(scope::specs::Choice::pick, scope::specs::Areas::is_area, scope::specs::Areas::is_size, scope::specs::Areas::buffers_of, scope::specs::Areas::share_byte, scope::specs::Areas::buffer_at))]

ghost use Rattle.std.specs.Prelude.{◌≡◌, true, ◌+◌, ◌-◌, ◌^◌, ◌<◌, ◌≤◌, MatchOption};
ghost use Rattle.scope.specs.Areas.{is_area, is_size, buffers_of, share_byte, is_out, is_free, free_of, buffer_address, buffer_at};
ghost use Rattle.scope.specs.Pools.{overlaps, overlapped};
ghost use Rattle.scope.specs.Rules.{pair_shares, pools_apart};

use scope::Pools;

// An end may be 2 ^ 32, so it is a u64.
fn end_of(address: u32, length: u32) -> u64
    ensures { result ≡ address + length }
{
    u64::from(address) + u64::from(length)
}

// "Length 1 or more and address + length at most 4,294,967,296"
pub fn is_area(address: u32, length: u32) -> bool
    ensures { result ≡ is_area address length }
{
    1 <= length && end_of(address, length) <= 4294967296
}

// Not "size 0, or length ÷ size not in 1 to 64"
pub fn is_size(length: u32, size: u32) -> bool
    ensures { result ≡ is_size length size }
{
    if size == 0 {
        return false;
    }
    let n = length / size;
    1 <= n && n <= 64
}

// "Buffers = length ÷ size, rounded down"
pub fn buffers_of(length: u32, size: u32) -> u32
    ensures { result ≡ buffers_of length size }
{
    if size == 0 {
        return 0;
    }
    (length / size).min(64)
}

// Whether two areas share a byte: each begins before the other ends.
pub fn share_byte(a1: u32, n1: u32, a2: u32, n2: u32) -> bool
    ensures { result ≡ share_byte a1 n1 a2 n2 }
{
    u64::from(a1) < end_of(a2, n2) && u64::from(a2) < end_of(a1, n1)
}

// Whether buffer `k` is out.
pub fn is_out(out: u64, k: u32) -> bool
    requires { k < 64 }
    ensures { result ≡ is_out out k }
{
    (out >> k) % 2 == 1
}

// How many of `n` buffers are free: all but those that are out, whose marks alone are left when the others are shifted away.
pub fn free_of(out: u64, n: u32) -> u32
    requires { n ≤ 64 }
    ensures { result ≡ free_of out n }
{
    if n == 0 {
        return 0;
    }
    n - (out << (64 - n)).count_ones()
}

// The marks with buffer `k`, which is free, out.
pub fn take(out: u64, k: u32) -> u64
    requires { (k < 64) × (is_free out k ≡ true) }
    ensures { result ≡ out + 2 ^ k }
{
    out + (1u64 << k)
}

// The marks with buffer `k`, which is out, free.
pub fn give_back(out: u64, k: u32) -> u64
    requires { (k < 64) × (is_out out k ≡ true) }
    ensures { result ≡ out - 2 ^ k }
{
    out - (1u64 << k)
}

// Where buffer `k` starts.
pub fn buffer_address(address: u32, size: u32, k: u32) -> u32
    requires { k < 64 }
    ensures { result ≡ buffer_address address size k }
{
    ((u64::from(address) + u64::from(k) * u64::from(size)) % 4294967296) as u32
}

// The buffer of `n` that starts at `x`. (The definition has 64 for none.)
pub fn buffer_at(address: u32, size: u32, n: u32, x: u32) -> Option<u32>
    ensures { MatchOption result (64 ≡ buffer_at address size n x) (λ k. (k < n) × (k ≡ buffer_at address size n x)) }
{
    if x < address || size == 0 {
        return None;
    }
    let from = x - address;
    if from % size == 0 {
        let k = from / size;
        if k < n {
            return Some(k);
        }
    }
    None
}

// Whether pool `k` is live and shares a byte with this area.
#[tactic(auto, unfolding(scope::specs::Pools::overlaps))]
fn overlaps(pools: &Pools, address: u32, length: u32, k: usize) -> bool
    requires { k < 8 }
    ensures { result ≡ overlaps pools.now address length k }
{
    pools.live[k] && share_byte(address, length, pools.address[k], pools.length[k])
}

// The lowest slot of a live pool whose area shares a byte with this one. (The definition has 8 for none.)
pub fn overlapped(pools: &Pools, address: u32, length: u32) -> Option<usize>
    ensures { MatchOption result (8 ≤ overlapped pools.now address length) (λ k. (k < 8) × (k ≡ overlapped pools.now address length)) }
{
    for k in 0..8 {
        if overlaps(pools, address, length, k) {
            return Some(k);
        }
    }
    None
}

// Whether both pools are live and share a byte.
#[tactic(auto, unfolding(scope::specs::Rules::pair_shares))]
fn pair_shares(pools: &Pools, i: usize, j: usize) -> bool
    requires { (i < 8) × (j < 8) }
    ensures { result ≡ pair_shares pools.now i j }
{
    pools.live[i]
        && pools.live[j]
        && share_byte(
            pools.address[i],
            pools.length[i],
            pools.address[j],
            pools.length[j],
        )
}

// "No two live pools share a byte, and the test stops at the first pair that does."
pub fn pools_apart(pools: &Pools) -> bool
    ensures { result ≡ pools_apart pools.now }
{
    let mut apart = true;
    'pairs: for i in 0..8 {
        for j in i + 1..8 {
            if pair_shares(pools, i, j) {
                apart = false;
                break 'pairs;
            }
        }
    }
    apart
}
