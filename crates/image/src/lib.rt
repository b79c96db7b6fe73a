// The tables of the state, put into an image, taken from it and tested, column by column. Printed by tools/generate/run.
// (specs/Image.antt, specs/Reading.antt, specs/Tests.antt; docs/IMAGE.md has the places.)
#![tactic(auto)]

ghost use Rattle.std.specs.Prelude.{◌≡◌, [], ◌∷◌, length};
ghost use Rattle.fields.specs.Columns.{part};
ghost use Rattle.fields.specs.Fields.{put_fields};
ghost use Rattle.image.specs.Image.{each, bytes, header_numbers, task_fields, sem_fields, pool_fields, queue_fields};
ghost use Rattle.image.specs.Reading.{line_from, tasks_from, sems_from, pools_from, queues_from, same_bytes};
ghost use Rattle.image.specs.Tests.{header_right, flags_right};

use scope::{Line, Pools, Queues, Semaphores, Tasks};

// The bytes of an image.
pub const SIZE: usize = 9920;

// Edition, length, then count and place of each table.
const HEADER: [u32; 10] = [1, 9920, 32, 40, 16, 584, 8, 744, 8, 1480];

pub fn put_header(image: &mut [u8; SIZE])
    ensures { image.new ≡ put_fields 4 10 (each 4 header_numbers ∷ []) 0 image.old }
{
    columns::put_column(image, 0, 4, &HEADER);
}

pub fn put_order(image: &mut [u8; SIZE], places: &[u8; 32])
    ensures { image.new ≡ put_fields 32 1 (bytes 32 places.now ∷ []) 9888 image.old }
{
    columns::put_rows(image, 9888, 32, 1, 32, places);
}

pub fn put_tasks(image: &mut [u8; SIZE], line: &Line, tasks: &Tasks)
    ensures { image.new ≡ put_fields 17 32 (task_fields line.now tasks.now) 40 image.old }
{
    columns::put_column(image, 40, 17, &tasks.name);
    columns::put_column(image, 44, 17, &tasks.serial);
    columns::put_column(image, 46, 17, &tasks.live);
    columns::put_column(image, 47, 17, &tasks.started);
    columns::put_column(image, 48, 17, &tasks.suspended);
    columns::put_column(image, 49, 17, &tasks.priority);
    columns::put_column(image, 50, 17, &line.left);
    columns::put_column(image, 54, 17, &line.seat);
    columns::put_column(image, 56, 17, &line.joined);
}

pub fn take_tasks(image: &[u8; SIZE], line: &mut Line, tasks: &mut Tasks)
    ensures line { line.new ≡ record (line_from image.now) { rings = line.old.rings } }
    ensures tasks { tasks.new ≡ tasks_from image.now }
{
    columns::take_column(image, 40, 17, &mut tasks.name);
    columns::take_column(image, 44, 17, &mut tasks.serial);
    columns::take_column(image, 46, 17, &mut tasks.live);
    columns::take_column(image, 47, 17, &mut tasks.started);
    columns::take_column(image, 48, 17, &mut tasks.suspended);
    columns::take_column(image, 49, 17, &mut tasks.priority);
    columns::take_column(image, 50, 17, &mut line.left);
    columns::take_column(image, 54, 17, &mut line.seat);
    columns::take_column(image, 56, 17, &mut line.joined);
}

pub fn put_semaphores(image: &mut [u8; SIZE], semaphores: &Semaphores)
    ensures { image.new ≡ put_fields 10 16 (sem_fields semaphores.now) 584 image.old }
{
    columns::put_column(image, 584, 10, &semaphores.name);
    columns::put_column(image, 588, 10, &semaphores.serial);
    columns::put_column(image, 590, 10, &semaphores.units);
    columns::put_column(image, 592, 10, &semaphores.live);
    columns::put_column(image, 593, 10, &semaphores.fifo);
}

pub fn take_semaphores(image: &[u8; SIZE], semaphores: &mut Semaphores)
    ensures { semaphores.new ≡ sems_from image.now }
{
    columns::take_column(image, 584, 10, &mut semaphores.name);
    columns::take_column(image, 588, 10, &mut semaphores.serial);
    columns::take_column(image, 590, 10, &mut semaphores.units);
    columns::take_column(image, 592, 10, &mut semaphores.live);
    columns::take_column(image, 593, 10, &mut semaphores.fifo);
}

pub fn put_pools(image: &mut [u8; SIZE], pools: &Pools)
    ensures { image.new ≡ put_fields 92 8 (pool_fields pools.now) 744 image.old }
{
    columns::put_column(image, 744, 92, &pools.out);
    columns::put_column(image, 752, 92, &pools.name);
    columns::put_column(image, 756, 92, &pools.address);
    columns::put_column(image, 760, 92, &pools.length);
    columns::put_column(image, 764, 92, &pools.size);
    columns::put_column(image, 768, 92, &pools.serial);
    columns::put_column(image, 770, 92, &pools.live);
    columns::put_column(image, 771, 92, &pools.forced);
    columns::put_rows(image, 772, 92, 8, 64, &pools.place);
}

pub fn take_pools(image: &[u8; SIZE], pools: &mut Pools)
    ensures { pools.new ≡ pools_from image.now }
{
    columns::take_column(image, 744, 92, &mut pools.out);
    columns::take_column(image, 752, 92, &mut pools.name);
    columns::take_column(image, 756, 92, &mut pools.address);
    columns::take_column(image, 760, 92, &mut pools.length);
    columns::take_column(image, 764, 92, &mut pools.size);
    columns::take_column(image, 768, 92, &mut pools.serial);
    columns::take_column(image, 770, 92, &mut pools.live);
    columns::take_column(image, 771, 92, &mut pools.forced);
    columns::take_rows(image, 772, 92, 8, 64, &mut pools.place);
}

pub fn put_queues(image: &mut [u8; SIZE], queues: &Queues)
    ensures { image.new ≡ put_fields 1051 8 (queue_fields queues.now) 1480 image.old }
{
    columns::put_column(image, 1480, 1051, &queues.name);
    columns::put_column(image, 1484, 1051, &queues.serial);
    columns::put_column(image, 1486, 1051, &queues.live);
    columns::put_column(image, 1487, 1051, &queues.fifo);
    columns::put_rows(image, 1488, 1051, 8, 2, &queues.limits);
    columns::put_column(image, 1490, 1051, &queues.held);
    columns::put_rows(image, 1491, 1051, 8, 1040, &queues.cells);
}

pub fn take_queues(image: &[u8; SIZE], queues: &mut Queues)
    ensures { queues.new ≡ queues_from image.now }
{
    columns::take_column(image, 1480, 1051, &mut queues.name);
    columns::take_column(image, 1484, 1051, &mut queues.serial);
    columns::take_column(image, 1486, 1051, &mut queues.live);
    columns::take_column(image, 1487, 1051, &mut queues.fifo);
    columns::take_rows(image, 1488, 1051, 8, 2, &mut queues.limits);
    columns::take_column(image, 1490, 1051, &mut queues.held);
    columns::take_rows(image, 1491, 1051, 8, 1040, &mut queues.cells);
}

// Whether the header is that of the edition.
pub fn header_right(image: &[u8]) -> bool
    requires { length image.now ≡ 9920 }
    ensures { result ≡ header_right image.now }
{
    columns::is_column(image, 0, 4, &HEADER)
}

// Whether each yes or no is 1 or 0.
#[tactic(auto, unfolding(crate::specs::Tests::flags_right))]
pub fn flags_right(image: &[u8]) -> bool
    requires { length image.now ≡ 9920 }
    ensures { result ≡ flags_right image.now }
{
    columns::flags_only(image, 46, 17, 32)
        & columns::flags_only(image, 47, 17, 32)
        & columns::flags_only(image, 48, 17, 32)
        & columns::flags_only(image, 592, 10, 16)
        & columns::flags_only(image, 593, 10, 16)
        & columns::flags_only(image, 770, 92, 8)
        & columns::flags_only(image, 771, 92, 8)
        & columns::flags_only(image, 1486, 1051, 8)
        & columns::flags_only(image, 1487, 1051, 8)
}

// Whether the ready order has these places.
pub fn order_is(image: &[u8], places: &[u8; 32]) -> bool
    requires { length image.now ≡ 9920 }
    ensures { result ≡ same_bytes (part 32 9888 image.now) places.now }
{
    columns::is_column(image, 9888, 1, places)
}
