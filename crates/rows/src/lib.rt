// The call table: the calls by name and by number, and a row for each of them, who may make it and which statuses it can answer,
// as a set of bits.
// A constant table, read by call number, in two columns: a step reads the first alone.
#![tactic(auto)]

ghost use Rattle.std.specs.Prelude.{◌≡◌, ◌<◌, ◌≤◌, MatchOption};
ghost use Rattle.scope.specs.Calls.{known_calls, call_at, may_call};
ghost use Rattle.rows.specs.Rows.{set_at, may_give};
ghost use Rattle.rows.specs.Kinds.{number_of, mark_of};

// ( Printed by tools/generate/run: known
pub const CALLS: usize = 27;
// )

#[derive(Clone, Copy, PartialEq, Eq, Debug, Drop)]
pub enum TaskCall {
    Create = 1,
    Delete = 2,
    Ident = 3,
    Start = 4,
    Suspend = 5,
    Resume = 6,
    SetPriority = 7,
}

#[derive(Clone, Copy, PartialEq, Eq, Debug, Drop)]
pub enum SemaphoreCall {
    Create = 8,
    Delete = 9,
    Ident = 10,
    Claim = 11,
    Release = 12,
    Info = 13,
}

#[derive(Clone, Copy, PartialEq, Eq, Debug, Drop)]
pub enum PoolCall {
    Create = 14,
    Delete = 15,
    Ident = 16,
    GetBuff = 17,
    RetBuff = 18,
    Info = 19,
}

#[derive(Clone, Copy, PartialEq, Eq, Debug, Drop)]
pub enum QueueCall {
    Create = 20,
    Delete = 21,
    Ident = 22,
}

#[derive(Clone, Copy, PartialEq, Eq, Debug, Drop)]
pub enum SendCall {
    Send = 23,
    Jump = 24,
}

#[derive(Clone, Copy, PartialEq, Eq, Debug, Drop)]
pub enum ReceiveCall {
    Receive = 25,
    Info = 26,
}

// A call of the table: a chapter's calls are a type of their own, so each chapter takes its own calls and no other.
#[derive(Clone, Copy, PartialEq, Eq, Debug, Drop)]
pub enum Call {
    Tick,
    Task(TaskCall),
    Semaphore(SemaphoreCall),
    Pool(PoolCall),
    Queue(QueueCall),
    Send(SendCall),
    Receive(ReceiveCall),
}

// Who makes a call, by the caller's mark.
#[derive(Clone, Copy, PartialEq, Eq, Debug, Drop)]
pub enum Caller {
    Task = 0,
    Interrupt = 1,
}

impl Call {
    // The call's number in the table.
    pub fn number(self) -> u32
        ensures value { result ≡ number_of self }
        ensures known { result < known_calls }
    {
        match self {
            Call::Tick => 0,
            Call::Task(call) => call as u32,
            Call::Semaphore(call) => call as u32,
            Call::Pool(call) => call as u32,
            Call::Queue(call) => call as u32,
            Call::Send(call) => call as u32,
            Call::Receive(call) => call as u32,
        }
    }

    // The call of that number, if there is one.
    pub fn from_number(number: u32) -> Option<Call>
        ensures { MatchOption result (known_calls ≤ number) (λ call. number_of call ≡ number) }
    {
        Some(match number {
            0 => Call::Tick,
            1 => Call::Task(TaskCall::Create),
            2 => Call::Task(TaskCall::Delete),
            3 => Call::Task(TaskCall::Ident),
            4 => Call::Task(TaskCall::Start),
            5 => Call::Task(TaskCall::Suspend),
            6 => Call::Task(TaskCall::Resume),
            7 => Call::Task(TaskCall::SetPriority),
            8 => Call::Semaphore(SemaphoreCall::Create),
            9 => Call::Semaphore(SemaphoreCall::Delete),
            10 => Call::Semaphore(SemaphoreCall::Ident),
            11 => Call::Semaphore(SemaphoreCall::Claim),
            12 => Call::Semaphore(SemaphoreCall::Release),
            13 => Call::Semaphore(SemaphoreCall::Info),
            14 => Call::Pool(PoolCall::Create),
            15 => Call::Pool(PoolCall::Delete),
            16 => Call::Pool(PoolCall::Ident),
            17 => Call::Pool(PoolCall::GetBuff),
            18 => Call::Pool(PoolCall::RetBuff),
            19 => Call::Pool(PoolCall::Info),
            20 => Call::Queue(QueueCall::Create),
            21 => Call::Queue(QueueCall::Delete),
            22 => Call::Queue(QueueCall::Ident),
            23 => Call::Send(SendCall::Send),
            24 => Call::Send(SendCall::Jump),
            25 => Call::Receive(ReceiveCall::Receive),
            26 => Call::Receive(ReceiveCall::Info),
            _ => return None,
        })
    }
}

impl Caller {
    // The caller's mark.
    pub fn mark(self) -> u32
        ensures value { result ≡ mark_of self }
        ensures known { result < 2 }
    {
        self as u32
    }

    // The caller of that mark, if there is one.
    pub fn from_mark(mark: u32) -> Option<Caller>
        ensures { MatchOption result (1 < mark) (λ caller. mark_of caller ≡ mark) }
    {
        match mark {
            0 => Some(Caller::Task),
            1 => Some(Caller::Interrupt),
            _ => None,
        }
    }
}

// Bit 0 the running task, bit 1 an interrupt.
const TASK: u8 = 1;

const INTERRUPT: u8 = 2;

const EITHER: u8 = 3;

const WHO: [u8; CALLS] = [
    // ( Printed by tools/generate/run: who
    INTERRUPT, // 0 tick
    TASK, // 1 task_create
    TASK, // 2 task_delete
    TASK, // 3 task_ident
    TASK, // 4 task_start
    TASK, // 5 task_suspend
    TASK, // 6 task_resume
    TASK, // 7 task_set_priority
    TASK, // 8 sem_create
    TASK, // 9 sem_delete
    TASK, // 10 sem_ident
    TASK, // 11 sem_claim
    EITHER, // 12 sem_release
    TASK, // 13 sem_info
    TASK, // 14 pool_create
    TASK, // 15 pool_delete
    TASK, // 16 pool_ident
    TASK, // 17 pool_get_buff
    TASK, // 18 pool_ret_buff
    TASK, // 19 pool_info
    TASK, // 20 queue_create
    TASK, // 21 queue_delete
    TASK, // 22 queue_ident
    EITHER, // 23 queue_send
    EITHER, // 24 queue_jump
    TASK, // 25 queue_receive
    TASK, // 26 queue_info
    // )
];

// Bit s for status s.
const MAY: [u64; CALLS] = [
    // ( Printed by tools/generate/run: may
    0x6000001, // 0 tick
    0x7080085, // 1 task_create
    0x7000035, // 2 task_delete
    0x7000105, // 3 task_ident
    0x7100035, // 4 task_start
    0x7600035, // 5 task_suspend
    0x7a00035, // 6 task_resume
    0x7080035, // 7 task_set_priority
    0x70002c5, // 8 sem_create
    0x7000035, // 9 sem_delete
    0x7000105, // 10 sem_ident
    0x700047f, // 11 sem_claim
    0x7001031, // 12 sem_release
    0x7000035, // 13 sem_info
    0x700c0cd, // 14 pool_create
    0x7010035, // 15 pool_delete
    0x7000105, // 16 pool_ident
    0x7020035, // 17 pool_get_buff
    0x7040035, // 18 pool_ret_buff
    0x7000035, // 19 pool_info
    0x70000cd, // 20 queue_create
    0x7000035, // 21 queue_delete
    0x7000105, // 22 queue_ident
    0x1f000031, // 23 queue_send
    0x1f000031, // 24 queue_jump
    0x2700007f, // 25 queue_receive
    0x7000035, // 26 queue_info
    // )
];

// Who may make a call.
pub fn who_of(call: usize) -> u8
    requires { call < known_calls }
    ensures { result ≡ (call_at call).who }
{
    WHO[call]
}

// The set of statuses that a call can answer.
pub fn may_of(call: usize) -> u64
    requires { call < known_calls }
    ensures { result ≡ set_at call }
{
    MAY[call]
}

// Whether the caller may make the call of that number: a look into the table, with no choice among the calls.
#[tactic(auto, unfolding(scope::specs::Calls::may_call))]
pub fn may_call(call: u32, caller: Caller) -> bool
    requires { call < known_calls }
    ensures { result ≡ may_call call (mark_of caller) }
{
    (who_of(call as usize) >> caller.mark()) % 2 == 1
}

// Whether the status stands in the call's row.
pub fn may_give(call: u32, status: u32) -> bool
    requires call_lt_known_calls { call < known_calls }
    requires status_bound { status < 64 }
    ensures { result ≡ may_give call status }
{
    (may_of(call as usize) >> status) % 2 == 1
}
