// The pool calls. Each is lent the state and changes it where it lies; a refused call leaves it as it was.
// (scope's specs/Pools.antt.)
// (A cast by `as` stands where Rust has no `From`; each is proved to lose nothing.)
// (Options come as a number. Each call reads the bit as its own, and tests the number at its own place among its refusals.)
#![tactic(auto, unfolding(scope::specs::Choice::pick, tables::specs::Slots::slot_of, scope::specs::Answers::on_found, scope::specs::Answers::plain, scope::specs::Answers::gives, scope::specs::Answers::answer, answers::specs::Outcomes::outcome, answers::specs::Outcomes::answer_of, scope::specs::Areas::is_free, scope::specs::Pools::pool_create, scope::specs::Pools::pool_create_at, scope::specs::Pools::pool_delete_at, scope::specs::Pools::pool_ident, scope::specs::Pools::pool_ident_at, scope::specs::Pools::pool_get_buff_at, scope::specs::Pools::pool_get_buffer, scope::specs::Pools::pool_ret_buff_at, scope::specs::Pools::pool_ret_buffer, scope::specs::Pools::pool_info_at), using(scope::proofs::Buffers::buffers_few, crate::proofs::Laws::free_few))]

ghost use Rattle.std.specs.Prelude.{◌≡◌, ◌<◌, ◌≤◌, set};
ghost use Rattle.scope.specs.Places.{with_row};
ghost use Rattle.scope.specs.Answers.{no_wakes};
ghost use Rattle.scope.specs.Pools.{pool_buffers, pool_create, pool_delete, pool_ident, pool_get_buff, pool_ret_buff, pool_info};
ghost use Rattle.answers.specs.Outcomes.{answer_of, outcome_of};

use answers::Outcome;
use scope::{Pools, Refusal, State};

// What a slot of the table holds beside its serial, no buffer being out.
#[derive(Drop)]
struct Pool {
    name: u32,
    address: u32,
    length: u32,
    size: u32,
    live: bool,
    forced: bool,
    places: [u8; 64],
}

// Slot i holds that pool. Its serial stays.
fn put_pool(pools: &mut Pools, i: usize, pool: Pool)
    requires { i < 8 }
    ensures { pools.new ≡ record pools.old {
      out = set pools.old.out i 0;
      name = set pools.old.name i pool.name;
      address = set pools.old.address i pool.address;
      length = set pools.old.length i pool.length;
      size = set pools.old.size i pool.size;
      live = set pools.old.live i pool.live;
      forced = set pools.old.forced i pool.forced;
      place = with_row pools.old.place i pool.places;
    } }
{
    pools.out[i] = 0;
    pools.name[i] = pool.name;
    pools.address[i] = pool.address;
    pools.length[i] = pool.length;
    pools.size[i] = pool.size;
    pools.live[i] = pool.live;
    pools.forced[i] = pool.forced;
    places::put_row(&mut pools.place, i, pool.places);
}

// "pool_create: 3, 14, 6, 7, 15": a full table is told before an overlap is looked for. The new pool takes the lowest slot.
// (The call has five arguments.)
pub fn pool_create(
    s: &mut State,
    name: u32,
    address: u32,
    length: u32,
    size: u32,
    options: u32,
) -> Result<Outcome, Refusal>
    ensures answer { answer_of s.new no_wakes (outcome_of s.old.running result)
        ≡ pool_create s.old name address length size options }
    ensures running { s.new.running ≡ s.old.running }
{
    if !areas::is_area(address, length) {
        return Err(Refusal::InvalidParameter);
    }
    if !areas::is_size(length, size) {
        return Err(Refusal::InvalidBuffSize);
    }
    if scope::LAST_OPTION < options {
        return Err(Refusal::InvalidOptions);
    }
    let i = tables::lowest_usable(&s.pools).ok_or(Refusal::TooManyObjects)?;
    if areas::overlapped(&s.pools, address, length).is_some() {
        return Err(Refusal::PoolOverlap);
    }
    let next = s.pools.serial[i] + 1;
    s.pools.serial[i] = next;
    let pool = Pool {
        name,
        address,
        length,
        size,
        live: true,
        forced: options == scope::FORCED_DELETE,
        places: places::new_row(areas::buffers_of(length, size) as usize),
    };
    put_pool(&mut s.pools, i, pool);
    Ok(answers::gives(tables::identifier(next, i), s.running))
}

// How many buffers the pool has, free or out: at most 64, as many as have marks and places.
fn buffers(pools: &Pools, i: usize) -> u32
    requires { i < 8 }
    ensures value { result ≡ pool_buffers pools.now i }
    ensures few { result ≤ 64 }
{
    areas::buffers_of(pools.length[i], pools.size[i])
}

// "buffers out, not FORCED_DELETE" is refused.
pub fn pool_delete(s: &mut State, id: u32) -> Result<Outcome, Refusal>
    ensures answer { answer_of s.new no_wakes (outcome_of s.old.running result) ≡ pool_delete s.old id }
    ensures running { s.new.running ≡ s.old.running }
{
    let i = tables::find(&s.pools, id)?;
    if !s.pools.forced[i] && 0 < s.pools.out[i] {
        return Err(Refusal::PoolInUse);
    }
    let none = Pool {
        name: 0,
        address: 0,
        length: 0,
        size: 0,
        live: false,
        forced: false,
        places: [0; 64],
    };
    put_pool(&mut s.pools, i, none);
    Ok(answers::plain(scope::OK, s.running))
}

// The live pool of that name in the lowest slot.
// (Each kind of object has this call, with a definition of its own; the search is one.)
pub fn pool_ident(s: &State, name: u32) -> Result<Outcome, Refusal>
    ensures { answer_of s.now no_wakes (outcome_of s.now.running result) ≡ pool_ident s.now name }
{
    let id = tables::ident(&s.pools, name)?;
    Ok(answers::gives(id, s.running))
}

// "pool_get_buff now gives the buffer that has been free longest". A buffer on the first place that is out is given in no state
// that keeps the rules.
pub fn pool_get_buff(s: &mut State, id: u32) -> Result<Outcome, Refusal>
    ensures answer { answer_of s.new no_wakes (outcome_of s.old.running result) ≡ pool_get_buff s.old id }
    ensures running { s.new.running ≡ s.old.running }
{
    let i = tables::find(&s.pools, id)?;
    let n = buffers(&s.pools, i);
    let marks = s.pools.out[i];
    let row = places::row_of(&s.pools.place, i);
    let k = places::longest_free(row).ok_or(Refusal::NoMoreMemory)?;
    if n <= k || areas::is_out(marks, k) {
        return Err(Refusal::NoMoreMemory);
    }
    let at = areas::buffer_address(s.pools.address[i], s.pools.size[i], k);
    s.pools.out[i] = areas::take(marks, k);
    places::put_row(&mut s.pools.place, i, places::first_leaves(row));
    Ok(answers::gives(at, s.running))
}

// "Any task may return a buffer." It joins the free ones at the end of their order.
pub fn pool_ret_buff(s: &mut State, id: u32, x: u32) -> Result<Outcome, Refusal>
    ensures answer { answer_of s.new no_wakes (outcome_of s.old.running result) ≡ pool_ret_buff s.old id x }
    ensures running { s.new.running ≡ s.old.running }
{
    let i = tables::find(&s.pools, id)?;
    let n = buffers(&s.pools, i);
    let marks = s.pools.out[i];
    let starts = areas::buffer_at(s.pools.address[i], s.pools.size[i], n, x);
    let k = starts.ok_or(Refusal::InvalidBuff)?;
    if !areas::is_out(marks, k) {
        return Err(Refusal::InvalidBuff);
    }
    let free = areas::free_of(marks, n);
    s.pools.out[i] = areas::give_back(marks, k);
    places::join_last(&mut s.pools.place, i, free, k as usize);
    Ok(answers::plain(scope::OK, s.running))
}

// "pool_info gives buffers, free, size, options"
pub fn pool_info(s: &State, id: u32) -> Result<Outcome, Refusal>
    ensures { answer_of s.now no_wakes (outcome_of s.now.running result) ≡ pool_info s.now id }
{
    let i = tables::find(&s.pools, id)?;
    let n = buffers(&s.pools, i);
    let free = areas::free_of(s.pools.out[i], n);
    let forced = answers::bit(s.pools.forced[i]);
    Ok(answers::tells(n, free, s.pools.size[i], forced, false, s.running))
}
