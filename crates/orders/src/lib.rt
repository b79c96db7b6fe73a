// The ready order as 32 bytes, from the seats: who is on each ready seat is noted once, then the rings are read from the most urgent
// one down. (specs/Places.antt.)
#![tactic(auto)]

ghost use Rattle.std.specs.Prelude.{◌≡◌, List, [], ◌∷◌, ◌++◌, ℕ, suc, ◌<◌};
ghost use Rattle.orders.specs.Places.{order_places, Told, ring_tasks, marked_at, Placed};

// The places given so far, and how many they are.
#[derive(Drop)]
struct Order {
    places: [u8; 32],
    given: usize,
}

impl Order {
    // The next place; past the last there is none.
    fn push(&mut self, task: u8)
        ensures { (ts : List ℕ) (t : ℕ) → task ≡ suc t → Placed ts self.old.places self.old.given → Placed (ts ++ (t ∷ [])) self.new.places self.new.given }
    {
        if self.given < 32 {
            self.places[self.given] = task;
            self.given += 1;
        }
    }
}

// Notes a task on its seat, if that is a ready one.
#[tactic(auto, unfolding(crate::specs::Places::marked_at, scope::specs::Choice::pick))]
fn mark(table: &mut [u8; 1024], seat: usize, task: u8)
    ensures { table.new ≡ marked_at table.old seat task }
{
    if seat >= 2048 && seat < 3072 {
        table[seat - 2048] = task;
    }
}

// Who is on each ready seat. The lowest slot is noted last, as a seat's task is the lowest one on it.
fn ready_seats(seat: &[u16; 32]) -> [u8; 1024]
    ensures { Told seat.now result }
{
    let mut table = [0; 1024];
    for t in (0..32u8).rev() {
        mark(&mut table, usize::from(seat[usize::from(t)]), t + 1);
    }
    table
}

// The tasks of ring p, behind those that have places.
fn put_ring(table: &[u8; 1024], p: usize, order: &mut Order)
    requires { p < 16 }
    ensures { (q ts : List ℕ) → Told q table.now → Placed ts order.old.places order.old.given
        → Placed (ts ++ ring_tasks q p) order.new.places order.new.given }
{
    for k in 1..33 {
        let task = table[p * 64 + k];
        if task == 0 {
            return;
        }
        order.push(task);
    }
}

pub fn ready_places(seat: &[u16; 32]) -> [u8; 32]
    ensures { result ≡ order_places seat.now }
{
    let table = ready_seats(seat);
    let mut order = Order {
        places: [0; 32],
        given: 0,
    };
    for p in (0..16).rev() {
        put_ring(&table, p, &mut order);
    }
    order.places
}
