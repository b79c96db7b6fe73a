// The state of the kernel, what is asked of it and the answers it gives, as plain data. What they mean, sentence by sentence,
// is in specs/. Every array is by slot: 32 tasks, 16 semaphores, 8 pools, 8 queues; places are by pool and buffer.

#![tactic(auto)]

ghost use Rattle.std.specs.Prelude.{◌≡◌};
ghost use Rattle.scope.specs.Refusals.{number_of};

use std::fmt;

pub const TASKS: usize = 32;

pub const SEMAPHORES: usize = 16;

pub const POOLS: usize = 8;

pub const QUEUES: usize = 8;

// The status numbers that are no refusal: of a call done, of one that waits, and those that woken tasks alone are told. (specs/Statuses.antt.)
pub const OK: u32 = 0;

pub const PENDING: u32 = 1;

pub const SEMAPHORE_DELETED: u32 = 11;

pub const TIME_OUT: u32 = 13;

pub const QUEUE_DELETED: u32 = 30;

// Why a call is refused, by its number: "Status numbers" but those that are no refusal (0, 1) or told to woken tasks alone (11, 13, 30).
// (specs/Refusals.antt.)
#[derive(Clone, Copy, PartialEq, Eq, Debug, Drop)]
pub enum Refusal {
    IllegalUse = 2,
    InvalidParameter = 3,
    InvalidId = 4,
    ObjectDeleted = 5,
    InvalidOptions = 6,
    TooManyObjects = 7,
    NameNotFound = 8,
    InvalidCount = 9,
    SemaphoreNotAvailable = 10,
    SemaphoreOverflow = 12,
    InvalidBuffSize = 14,
    PoolOverlap = 15,
    PoolInUse = 16,
    NoMoreMemory = 17,
    InvalidBuff = 18,
    InvalidPriority = 19,
    TaskAlreadyStarted = 20,
    TaskNotStarted = 21,
    TaskAlreadySuspended = 22,
    TaskNotSuspended = 23,
    NoCaller = 24,
    BadCall = 25,
    BadState = 26,
    InvalidLength = 27,
    QueueFull = 28,
    QueueEmpty = 29,
}

impl Refusal {
    // The number that an answer tells as its status.
    pub fn number(self) -> u32
        ensures { result ≡ number_of self }
    {
        self as u32
    }
}

impl fmt::Display for Refusal {
    fn fmt<W: fmt::Write>(&self, f: &mut fmt::Formatter<W>) -> fmt::Result {
        f.write_str(match self {
            Refusal::IllegalUse => "ILLEGAL_USE",
            Refusal::InvalidParameter => "INVALID_PARAMETER",
            Refusal::InvalidId => "INVALID_ID",
            Refusal::ObjectDeleted => "OBJECT_DELETED",
            Refusal::InvalidOptions => "INVALID_OPTIONS",
            Refusal::TooManyObjects => "TOO_MANY_OBJECTS",
            Refusal::NameNotFound => "NAME_NOT_FOUND",
            Refusal::InvalidCount => "INVALID_COUNT",
            Refusal::SemaphoreNotAvailable => "SEMAPHORE_NOT_AVAILABLE",
            Refusal::SemaphoreOverflow => "SEMAPHORE_OVERFLOW",
            Refusal::InvalidBuffSize => "INVALID_BUFF_SIZE",
            Refusal::PoolOverlap => "POOL_OVERLAP",
            Refusal::PoolInUse => "POOL_IN_USE",
            Refusal::NoMoreMemory => "NO_MORE_MEMORY",
            Refusal::InvalidBuff => "INVALID_BUFF",
            Refusal::InvalidPriority => "INVALID_PRIORITY",
            Refusal::TaskAlreadyStarted => "TASK_ALREADY_STARTED",
            Refusal::TaskNotStarted => "TASK_NOT_STARTED",
            Refusal::TaskAlreadySuspended => "TASK_ALREADY_SUSPENDED",
            Refusal::TaskNotSuspended => "TASK_NOT_SUSPENDED",
            Refusal::NoCaller => "NO_CALLER",
            Refusal::BadCall => "BAD_CALL",
            Refusal::BadState => "BAD_STATE",
            Refusal::InvalidLength => "INVALID_LENGTH",
            Refusal::QueueFull => "QUEUE_FULL",
            Refusal::QueueEmpty => "QUEUE_EMPTY",
        })
    }
}

// "Options are bit 0". (specs/Options.antt.)
pub const FIFO: u32 = 1;

pub const FORCED_DELETE: u32 = 1;

pub const NOWAIT: u32 = 1;

pub const LAST_OPTION: u32 = 1;

// Where each task stands, and what it waits with.
// A seat is queue × 64 + place, place 1 first, 0 for a task that stands nowhere. Queue i + 1 is the wait queue of
// semaphore i, queue i + 17 that of message queue i; queue 32 + p holds the ready tasks of priority p. So one number says
// which queue a task stands in and how many stand ahead of it, and no list has to be kept.
#[derive(Clone, Copy)]
pub struct Line {
    // The ticks left of a waiting task's time_out, or FOREVER.
    pub left: [u32; 32],
    pub seat: [u16; 32],
    // The joining priority of a waiting task.
    pub joined: [u8; 32],
    // The mask of the rings that hold a task, in its one place: bit p is set while queue 32 + p is not empty.
    pub rings: [u16; 1],
}

#[derive(Clone, Copy)]
pub struct Tasks {
    pub name: [u32; 32],
    pub serial: [u16; 32],
    pub live: [bool; 32],
    pub started: [bool; 32],
    pub suspended: [bool; 32],
    pub priority: [u8; 32],
}

#[derive(Clone, Copy)]
pub struct Semaphores {
    pub name: [u32; 16],
    pub serial: [u16; 16],
    // The units free to be claimed. The paper's count is these less the tasks waiting.
    pub units: [u16; 16],
    pub live: [bool; 16],
    pub fifo: [bool; 16],
}

#[derive(Clone, Copy)]
pub struct Pools {
    // Bit k is set while buffer k is out.
    pub out: [u64; 8],
    pub name: [u32; 8],
    pub address: [u32; 8],
    pub length: [u32; 8],
    pub size: [u32; 8],
    pub serial: [u16; 8],
    pub live: [bool; 8],
    pub forced: [bool; 8],
    // The order of the free buffers: place i × 64 + k is buffer k's of pool i, 1 for the one that has been free longest, 0 for one
    // that is out and for one that the pool does not have.
    pub place: [u8; 512],
}

// The message queues.
#[derive(Clone, Copy)]
pub struct Queues {
    pub name: [u32; 8],
    pub serial: [u16; 8],
    pub live: [bool; 8],
    pub fifo: [bool; 8],
    // Queue i's most messages (1 to 16) are at 2 × i, its longest message (1 to 64 bytes) at 2 × i + 1.
    pub limits: [u8; 16],
    // How many messages a queue holds.
    pub held: [u8; 8],
    // The messages: queue i has 16 cells of 65 bytes from i × 1,040 on, a cell is a message's length and its bytes, and zeros past them.
    pub cells: [u8; 8320],
}

#[derive(Clone, Copy)]
pub struct State {
    pub line: Line,
    pub tasks: Tasks,
    pub semaphores: Semaphores,
    pub pools: Pools,
    pub queues: Queues,
    // The slot of the running task, 32 where nothing runs. It follows from the seats and the mask, and is kept so that it is found once.
    pub running: usize,
}

// What is asked of a step: a call and its caller by their numbers, and five arguments.
#[derive(Clone, Copy, PartialEq, Eq, Debug)]
pub struct Request {
    pub call: u32,
    pub mark: u32,
    pub a: u32,
    pub b: u32,
    pub c: u32,
    pub d: u32,
    pub e: u32,
}

// The tasks that a call has woken so far, in order, beside where the tasks stand by then. (A list and its length: the definitions of waking
// have this shape, and there is no heap.)
#[derive(Clone, Copy)]
pub struct Waking {
    pub line: Line,
    pub wakes: [u32; 32],
    pub woken: usize,
}

// What a call answers, as the definitions have it. (Flags, counts and a status stand beside their values: theorems stand on this shape.)
#[derive(Clone, Copy)]
pub struct Answer {
    pub state: State,
    // The wake list: the identifiers of the first `woken` places, all woken with the status `why`.
    pub wakes: [u32; 32],
    pub woken: usize,
    pub why: u32,
    pub status: u32,
    pub values: [u32; 4],
    // Whether the second value stands for minus that number: sem_info's count.
    pub negative: bool,
    // The running task's identifier, 0 if none.
    pub running: u32,
    // Whether the wake is the delivery of a message, and that message's length.
    pub delivers: bool,
    pub length: u32,
    // The message shown, beside the wake that delivers it or beside the answer of a receive: zeros past its length, and where none is shown.
    pub shown: [u8; 64],
}

// A fresh state, or the refusal of its priority beside the fresh state of priority 0. (No Result: both are given at once.)
#[derive(Clone, Copy)]
pub struct Fresh {
    pub state: State,
    pub status: u32,
}

// What an identifier names. (No Result: the theorems over histories go by these three cases.)
#[derive(Clone, Copy)]
pub enum Found {
    At(usize),
    Deleted,
    Invalid,
}
