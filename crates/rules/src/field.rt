// Where the fields of a record stand: each by its first byte, counted from the record's start.

// "Thread: byte 0 in use (0/1)." "Semaphore: byte 0 in use."
pub const USED: usize = 0;

// "1 priority."
pub const PRIORITY: usize = 1;

// "2 suspended (0/1)."
pub const SUSPENDED: usize = 2;

// "3 wait kind."
pub const KIND: usize = 3;

// "4 wait object."
pub const OBJECT: usize = 4;

// "5 place in line."
pub const PLACE: usize = 5;

// "6 mailbox full (0/1)."
pub const FULL: usize = 6;

// "7 outcome, a signed byte."
pub const OUTCOME: usize = 7;

// "8-11 turn."
pub const TURN: usize = 8;

// "12-15 counter."
pub const COUNTER: usize = 12;

// "16-19 mailbox value."
pub const VALUE: usize = 16;

// "20-23 parcel."
pub const PARCEL: usize = 20;

// "Semaphore: [..] 1 count."
pub const COUNT: usize = 1;

// "Kernel: byte 0 running thread."
pub const RUNNING: usize = 0;

// "1 lock count."
pub const LOCK: usize = 1;

// Order 6: "a 32-bit word in kernel bytes 2 to 5".
pub const READY_WORD: usize = 2;
