// Identifier tables. "What holds for all three identifier tables is proved once over the table size": a table lends its columns as
// slices, and what is asked of them is generic over the table, so one proof serves every table.
// (A cast by `as` stands where Rust has no `From`; each is proved to lose nothing.)
#![tactic(auto, unfolding(scope::specs::Choice::pick, scope::specs::Identifiers::found, scope::specs::Identifiers::usable, scope::specs::Identifiers::named, crate::specs::Slots::slot_of))]

ghost use Rattle.std.specs.Prelude.{◌≡◌, ◌+◌, ◌*◌, ◌≤◌, ◌<◌, ℕ, Bool, List, false, length, get_or, MatchOption, MatchResult, IfOk};
ghost use Rattle.std.proofs.Common.{lit≤};
ghost use Rattle.scope.specs.declared.Refusal.TheVariants.{NameNotFound};
ghost use Rattle.scope.specs.Identifiers.{found, usable, lowest_usable, by_name};
ghost use Rattle.tables.specs.Masks.{mask_from};
ghost use Rattle.tables.specs.Slots.{slot_of, identifier_at};

use scope::{Pools, Queues, Refusal, Semaphores, Tasks};

// A slot that has issued this serial is never used again.
const LAST_SERIAL: u16 = 65535;

// How many slots one look sees: as many serials as the compiler takes at a time.
const SEEN: usize = 8;

// The columns of a table that identifiers go by: each has a place for every slot.
#[derive(Clone, Copy)]
pub struct Columns<'a> {
    pub serial: &'a [u16],
    pub live: &'a [bool],
    pub name: &'a [u32],
}

impl Columns<'_> {
    // Whether the slot holds an object; none past the last does.
    fn is_live(&self, k: usize) -> bool
        ensures { result ≡ get_or self.now.live.now k false }
    {
        self.live.get(k).copied().unwrap_or(false)
    }

    // Whether the slot is free and has a serial left.
    fn is_usable(&self, k: usize) -> bool
        requires { k < length self.now.serial.now }
        ensures { result ≡ usable self.now.serial.now self.now.live.now k }
    {
        !self.is_live(k) && self.serial[k] < LAST_SERIAL
    }

    // The usable ones of the n slots from `base` on, as a mask: bit i + 1 for slot base + i. Every slot's bit is shifted, the first one's too:
    // so the compiler takes all of them alike, and at once.
    fn usable_mask(&self, base: usize, n: usize) -> u16
        requires { (base + n ≤ length self.now.serial.now) × (n ≤ 8) }
        ensures { result ≡ mask_from (usable self.now.serial.now self.now.live.now) base n * 2 }
    {
        let mut mask = 0;
        for i in 0..n {
            mask |= u16::from(self.is_usable(base + i)) << (i + 1);
        }
        mask
    }

    // The slot that an identifier names, or its refusal.
    pub fn find(&self, id: u32) -> Result<usize, Refusal>
        ensures value { result ≡ slot_of (found self.now.serial.now self.now.live.now id) }
        ensures in_bounds { IfOk result (λ i. i < length self.now.serial.now) }
    {
        let slot = (id % 64) as usize;
        let issue = id / 64;
        let last = u32::from(*self.serial.get(slot).ok_or(Refusal::InvalidId)?);
        if issue == 0 {
            return Err(Refusal::InvalidId);
        }
        if last < issue {
            return Err(Refusal::InvalidId);
        }
        if self.is_live(slot) && last == issue {
            return Ok(slot);
        }
        Err(Refusal::ObjectDeleted)
    }

    // The lowest slot that is free and has a serial left: the trailing zeros of a mask made here. A table of more than eight slots takes
    // another look where the first finds none.
    pub fn lowest_usable(&self) -> Option<usize>
        ensures { MatchOption result (lowest_usable self.now.serial.now self.now.live.now ≡ length self.now.serial.now)
            (λ i. (i < length self.now.serial.now) × (i ≡ lowest_usable self.now.serial.now self.now.live.now) × (get_or self.now.serial.now i 0 < 65535)) }
    {
        for base in (0..self.serial.len()).step_by(SEEN) {
            let mask = self.usable_mask(base, SEEN.min(self.serial.len() - base));
            if mask != 0 {
                return Some(base + mask.trailing_zeros() as usize - 1);
            }
        }
        None
    }

    // The live object of that name in the lowest slot.
    pub fn by_name(&self, x: u32) -> Option<usize>
        ensures { MatchOption result (by_name self.now.live.now self.now.name.now x ≡ length self.now.live.now)
            (λ i. (i < length self.now.live.now) × (i ≡ by_name self.now.live.now self.now.name.now x)) }
    {
        for (k, is_live) in self.live.iter().enumerate() {
            if *is_live && self.name.get(k).copied().unwrap_or(0) == x {
                return Some(k);
            }
        }
        None
    }
}

// A table of the state, with so many slots: few enough for an identifier.
pub trait Table {
    ghost size: { ℕ };

    ghost serial: { Self → List ℕ };

    ghost live: { Self → List Bool };

    ghost name: { Self → List ℕ };

    // Its columns, lent.
    fn columns(&self) -> Columns<'_>
        ensures serial { (result.serial.now ≡ serial self.now) × (length result.serial.now ≡ size) }
        ensures live { (result.live.now ≡ live self.now) × (length result.live.now ≡ size) }
        ensures name { (result.name.now ≡ name self.now) × (length result.name.now ≡ size) };

    ghost small: { size ≤ 64 };
}

// (The four instances have one body: the parts of the state stay four types, and an impl written by a macro of ours is refused.)
impl Table for Tasks {
    ghost size = { 32 };

    ghost serial = { λ k. k.serial };

    ghost live = { λ k. k.live };

    ghost name = { λ k. k.name };

    fn columns(&self) -> Columns<'_> {
        Columns {
            serial: &self.serial,
            live: &self.live,
            name: &self.name,
        }
    }

    ghost small = { lit≤ tt };
}

impl Table for Semaphores {
    ghost size = { 16 };

    ghost serial = { λ m. m.serial };

    ghost live = { λ m. m.live };

    ghost name = { λ m. m.name };

    fn columns(&self) -> Columns<'_> {
        Columns {
            serial: &self.serial,
            live: &self.live,
            name: &self.name,
        }
    }

    ghost small = { lit≤ tt };
}

impl Table for Pools {
    ghost size = { 8 };

    ghost serial = { λ p. p.serial };

    ghost live = { λ p. p.live };

    ghost name = { λ p. p.name };

    fn columns(&self) -> Columns<'_> {
        Columns {
            serial: &self.serial,
            live: &self.live,
            name: &self.name,
        }
    }

    ghost small = { lit≤ tt };
}

impl Table for Queues {
    ghost size = { 8 };

    ghost serial = { λ u. u.serial };

    ghost live = { λ u. u.live };

    ghost name = { λ u. u.name };

    fn columns(&self) -> Columns<'_> {
        Columns {
            serial: &self.serial,
            live: &self.live,
            name: &self.name,
        }
    }

    ghost small = { lit≤ tt };
}

// The slot of the object that an identifier names, or its refusal.
pub fn find<T: Table>(table: &T, id: u32) -> Result<usize, Refusal>
    ensures value { result ≡ slot_of (found (T.serial table.now) (T.live table.now) id) }
    ensures in_bounds { IfOk result (λ i. i < T.size) }
{
    table.columns().find(id)
}

// The lowest slot that is free and has a serial left.
pub fn lowest_usable<T: Table>(table: &T) -> Option<usize>
    ensures whole { length (T.serial table.now) ≡ T.size }
    ensures lowest { MatchOption result (lowest_usable (T.serial table.now) (T.live table.now) ≡ length (T.serial table.now))
        (λ i. (i < T.size) × (i ≡ lowest_usable (T.serial table.now) (T.live table.now)) × (get_or (T.serial table.now) i 0 < 65535)) }
{
    table.columns().lowest_usable()
}

// The identifier of the live object of that name in the lowest slot.
pub fn ident<T: Table>(table: &T, name: u32) -> Result<u32, Refusal>
    ensures { MatchResult result
        (λ id. (by_name (T.live table.now) (T.name table.now) name < length (T.live table.now))
        × (id ≡ identifier_at (T.serial table.now) (by_name (T.live table.now) (T.name table.now) name)))
        (λ e. (e ≡ NameNotFound) × (by_name (T.live table.now) (T.name table.now) name ≡ length (T.live table.now))) }
{
    let columns = table.columns();
    let i = columns.by_name(name).ok_or(Refusal::NameNotFound)?;
    Ok(identifier(columns.serial[i], i))
}

// An object's identifier.
pub fn identifier(serial: u16, slot: usize) -> u32
    requires { slot < 64 }
    ensures { result ≡ serial * 64 + slot }
{
    u32::from(serial) * 64 + slot as u32
}
