// The words of document 01 as types: what a table holds, what is asked of it, and what is answered. Its numbers stand in `numbers`, where
// the fields of a record stand in `field`, and the bytes and codes that stand for some of the words in `codes`, as conversions.
// What they mean is said in specs/, in definitions that compute.
#![tactic(auto)]

mod codes;
pub mod field;
mod numbers;

pub use numbers::{
    AREA, KERNEL_FROM, MOST_COUNT, MOST_LOCK, MOST_THREADS, MOST_TICKS, PRIORITIES, RECORD,
    REQUEST, TABLE, THREADS, TOP_PRIORITY, VALUE_FROM,
};

// "A thread has one wait at a time, of one kind": the kind, its object and its counter. A thread that waits for
// nothing has what is left of its turn as its counter.
#[derive(Clone, Copy)]
pub enum Wait {
    Nothing { counter: u32 },
    Delay { counter: u32 },
    Receive { counter: u32 },
    Send { to: u8, counter: u32 },
    Semaphore { on: u8, counter: u32 },
}

// How a thread's last wait ended.
#[derive(Clone, Copy, PartialEq, Eq)]
pub enum Outcome {
    Done,
    NoneYet,
    Failed,
}

// A thread's record: `value` is its mailbox's, which is `full` or empty.
#[derive(Clone, Copy)]
pub struct Thread {
    pub used: bool,
    pub priority: u8,
    pub suspended: bool,
    pub wait: Wait,
    pub place: u8,
    pub full: bool,
    pub outcome: Outcome,
    pub turn: u32,
    pub value: u32,
    pub parcel: u32,
}

// A semaphore's record.
#[derive(Clone, Copy)]
pub struct Sem {
    pub used: bool,
    pub count: u8,
}

// The 24 operations, in the order of their numbers, each with the fields that it uses. No operation has the number 3.
#[derive(Clone, Copy)]
pub enum Request {
    Yield,
    Create {
        thread: u8,
        priority: u8,
        turn: u32,
    },
    Delete {
        thread: u8,
    },
    Suspend {
        thread: u8,
    },
    Resume {
        thread: u8,
    },
    Delay {
        number: u32,
    },
    Cancel {
        thread: u8,
    },
    Send {
        thread: u8,
        number: u32,
        parcel: u32,
    },
    SendFromInterrupt {
        thread: u8,
        parcel: u32,
    },
    Receive {
        number: u32,
    },
    Make {
        semaphore: u8,
        number: u32,
    },
    Drop {
        semaphore: u8,
    },
    Pend {
        semaphore: u8,
        number: u32,
    },
    Abort {
        thread: u8,
    },
    Post {
        semaphore: u8,
        number: u32,
    },
    PostFromInterrupt {
        semaphore: u8,
        number: u32,
    },
    Lock,
    Unlock,
    Tick,
    Outcome {
        thread: u8,
    },
    Ticks {
        number: u32,
    },
    Nearest,
    SetPriority {
        thread: u8,
        priority: u8,
    },
    SetTurn {
        thread: u8,
        turn: u32,
    },
}

// Why a request is refused: −1 to −8, in this order.
#[derive(Clone, Copy, PartialEq, Eq)]
pub enum Refusal {
    // "Thread number above 15, or free (Create: in use)."
    BadThread,
    // "Priority above 31."
    BadPriority,
    // "Turn or delay 0 or above 99,999."
    BadTicks,
    // "Suspend: already suspended; Resume: not; Cancel: not in a delay; Abort: not waiting on a semaphore."
    BadState,
    // "As said under each operation."
    BadOperation,
    // "Semaphore number above 7, or free (Make: in use)."
    BadSemaphore,
    // "Table unsound, or answer area not 8 bytes."
    BadTable,
    // "Record not 12 bytes, operation above 20, byte 3 or an unused field not zero"; order 7: "−8 now starts above 22".
    BadRecord,
}

// What a request that is not refused is told. `Blocked` says how many stand in the line ahead of the caller. `NoneYet` and `Failed` tell an
// outcome that is 1 or −5.
#[derive(Clone, Copy)]
pub enum Reply {
    Done { value: u32 },
    Blocked { ahead: u32 },
    NoneYet,
    Failed,
}

// What is answered: a reply, or why not.
pub type Answer = Result<Reply, Refusal>;
