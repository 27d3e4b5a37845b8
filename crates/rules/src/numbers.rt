// Document 01's numbers, for code: what a table, a record and an answer area measure, and how far each field goes. Every crate takes them
// from here; `specs/Board.antt` says the same to the contracts.

// "16 threads (0 to 15), thread 0 is Init."
pub const THREADS: usize = 16;

// The most threads that a board has.
pub const MOST_THREADS: usize = THREADS;

// "8 semaphores (0 to 7)."
const SEMAPHORES: usize = 8;

// "Priorities 0 to 31, larger outranks smaller."
pub const TOP_PRIORITY: u8 = 31;

// "There is a ready line per priority": so many.
pub const PRIORITIES: usize = TOP_PRIORITY as usize + 1;

// "Turns and delays 1 to 99,999 ticks."
pub const MOST_TICKS: u32 = 99999;

// "Semaphore count 0 to 99."
pub const MOST_COUNT: u8 = 99;

// "Lock nesting 0 to 255."
pub const MOST_LOCK: u8 = 255;

// "25 records of 24 bytes, no header": a record's length.
pub const RECORD: usize = 24;

// "Records 0 to 15 are threads, 16 to 23 semaphores, 24 the kernel": the byte at which the kernel's record starts.
pub const KERNEL_FROM: usize = (THREADS + SEMAPHORES) * RECORD;

// "Its length is 600."
pub const TABLE: usize = KERNEL_FROM + RECORD;

// "Records of 12 bytes, no header": a request's length.
pub const REQUEST: usize = 12;

// "An 8-byte answer area."
pub const AREA: usize = 8;

// "Code as signed 32 bits, then value": the byte at which the value starts.
pub const VALUE_FROM: usize = 4;
