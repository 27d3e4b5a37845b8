// Which board a table is of: its length says it. Who goes over all threads or all semaphores of a table, or looks for the records behind the
// threads', asks here.
#![tactic(auto)]

ghost use Rattle.std.specs.Prelude.{true, ◌↔◌, ◌≡◌, ◌+◌, ◌*◌, ◌≤◌, length};
ghost use Rattle.rules.specs.Board.{most_threads, record_length};
ghost use Rattle.layout.specs.Bytes.{sems_from, kernel_from};
ghost use Rattle.layout.specs.Boards.{HasSem, HasThreads, HasSems};
ghost use Rattle.layout.specs.Held.{board, Long};

use rules::{RECORD, TABLE, THREADS};

// Is the table as long as a board's?
pub fn is_long(t: &[u8]) -> bool
    ensures { (result ≡ true) ↔ Long t.now }
{
    t.len() == TABLE
}

// How many threads the table's board has.
pub fn threads(t: &[u8]) -> usize
    requires { Long t.now }
    ensures { HasThreads t.now result × (result ≤ most_threads) }
{
    THREADS
}

// How many semaphores it has.
pub fn semaphores(t: &[u8]) -> usize
    requires { Long t.now }
    ensures { HasSems t.now result }
{
    threads(t) / 2
}

// The byte at which semaphore `k`'s record starts.
pub fn semaphore_from(t: &[u8], k: usize) -> usize
    requires { HasSem t.now k × Long t.now }
    ensures { (result ≡ sems_from (board t.now) + k * record_length) × (result + record_length ≤ length t.now) }
{
    (threads(t) + k) * RECORD
}

// The byte at which the kernel's record starts.
pub fn kernel_from(t: &[u8]) -> usize
    requires { Long t.now }
    ensures { (result ≡ kernel_from (board t.now)) × (result + record_length ≡ length t.now) }
{
    (threads(t) + semaphores(t)) * RECORD
}
