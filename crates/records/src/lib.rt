// The records of the table, in place: a thread's, a semaphore's and the kernel's. Everybody else reads and writes them through here, but for
// the test of their bytes in crate `canon`.
//
// Every public function promises for all states at once. One that reads gives what the table says: for the state `s` with
// `said (now t) ≡ s`, whatever the bytes are. One that writes asks for a whole table, which holds the state that
// it says, and `Becomes` says of the rule in its last place that a table that held `s` now holds what the rule makes of `s`;
// the table is whole again. Where a thread's line may change, `Changes` says the same of a table but for its ready word, which is
// as it was: crate `ready` mends it. Only the bytes that change are written.
//
// The table goes from function to function as the bytes that C lends: a struct that held them would ask each function that writes for two
// more clauses, that it still holds the same bytes.
#![tactic(auto)]

ghost use Rattle.std.specs.Prelude.{◌≡◌, ℕ, ◌*◌, set};
ghost use Rattle.rules.specs.Board.{record_length};
ghost use Rattle.rules.specs.State.{State, free, at, sem_at, edit, with_place, with_wait, with_counter, with_suspended, with_outcome, with_mail, with_priority, with_turn, with_running, with_lock};
ghost use Rattle.rules.specs.Table.{kind_of, object_of, wait_of, word_at};
ghost use Rattle.records.specs.Fields.{with_used};
ghost use Rattle.layout.specs.Bytes.{word_from};
ghost use Rattle.layout.specs.Boards.{HasThread, HasSem};
ghost use Rattle.layout.specs.Held.{board, Long, said, Whole, Becomes, Shows, Laid, Changes, on_threads, on_sems};
ghost use Rattle.words.specs.Long.{long_at};

use rules::{Outcome, RECORD, Sem, Thread, Wait, field};

mod waits;

pub use waits::{counter_of, is_delaying, is_pending, is_receiving, is_sending, is_waiting};

// FIELDS

// A wait takes three fields of a record, so no `From` of one byte reads it or writes it.
#[tactic(auto, unfolding(rules::specs::Table::wait_of))]
fn wait_of(kind: u8, object: u8, counter: u32) -> Wait
    ensures { result ≡ wait_of kind object counter }
{
    match kind {
        0 => Wait::Nothing { counter },
        1 => Wait::Delay { counter },
        2 => Wait::Receive { counter },
        3 => Wait::Send {
            to: object,
            counter,
        },
        _ => Wait::Semaphore {
            on: object,
            counter,
        },
    }
}

fn kind_of(w: Wait) -> u8
    ensures { result ≡ kind_of w }
{
    match w {
        Wait::Nothing { .. } => 0,
        Wait::Delay { .. } => 1,
        Wait::Receive { .. } => 2,
        Wait::Send { .. } => 3,
        Wait::Semaphore { .. } => 4,
    }
}

fn object_of(w: Wait) -> u8
    ensures { result ≡ object_of w }
{
    match w {
        Wait::Nothing { .. } | Wait::Delay { .. } | Wait::Receive { .. } => 0,
        Wait::Send { to, .. } => to,
        Wait::Semaphore { on, .. } => on,
    }
}

// THREADS

// "A free record is all zero (its outcome too, though 0 otherwise means done)."
const FREE: Thread = Thread {
    used: false,
    priority: 0,
    suspended: false,
    wait: Wait::Nothing { counter: 0 },
    place: 0,
    full: false,
    outcome: Outcome::Done,
    turn: 0,
    value: 0,
    parcel: 0,
};

// Thread `i`.
pub fn load_thread(t: &[u8], i: usize) -> Thread
    requires { HasThread t.now i × Long t.now }
    ensures { (s : State) → said t.now ≡ s → result ≡ at s.threads i }
{
    let base = i * RECORD;
    // The words come first: with each in its field's place, a call on a full table takes 100 instructions more.
    let counter = words::word_at(t, base + field::COUNTER);
    let wait = wait_of(t[base + field::KIND], t[base + field::OBJECT], counter);
    let outcome = Outcome::from(t[base + field::OUTCOME]);
    let turn = words::word_at(t, base + field::TURN);
    let value = words::word_at(t, base + field::VALUE);
    let parcel = words::word_at(t, base + field::PARCEL);
    Thread {
        used: t[base + field::USED] == 1,
        priority: t[base + field::PRIORITY],
        suspended: t[base + field::SUSPENDED] == 1,
        wait,
        place: t[base + field::PLACE],
        full: t[base + field::FULL] == 1,
        outcome,
        turn,
        value,
        parcel,
    }
}

// The first eight bytes of thread `i`'s record, as a number.
pub fn head(t: &[u8], i: usize) -> u64
    requires { HasThread t.now i × Long t.now }
    ensures { result ≡ long_at t.now (i * record_length) }
{
    words::long_at(t, i * RECORD)
}

// Thread `i`, by the number that a request gives: one out of range reads as a free record.
pub fn thread_at(t: &[u8], i: u8) -> Thread
    requires { Long t.now }
    ensures { (s : State) → said t.now ≡ s → result ≡ at s.threads i }
{
    let k = usize::from(i);
    if k >= boards::threads(t) {
        return FREE;
    }
    load_thread(t, k)
}

// Each field has a function of its own, of one line or two: the promise of each names another rule, and crate `tight` has a theorem of each.

// The place of thread `i`.
pub fn set_place(t: &mut [u8], i: usize, place: u8)
    requires { HasThread t.old i × Whole t.old }
    ensures { Becomes t.old t.new (on_threads (edit i (with_place place))) }
{
    t[i * RECORD + field::PLACE] = place;
}

// The counter of thread `i`, whatever it waits for.
pub fn set_counter(t: &mut [u8], i: usize, counter: u32)
    requires { HasThread t.old i × Whole t.old }
    ensures { Becomes t.old t.new (on_threads (edit i (with_counter counter))) }
{
    words::put_word(t, i * RECORD + field::COUNTER, counter);
}

// The turn of thread `i`.
pub fn set_turn(t: &mut [u8], i: usize, turn: u32)
    requires { HasThread t.old i × Whole t.old }
    ensures { Becomes t.old t.new (on_threads (edit i (with_turn turn))) }
{
    words::put_word(t, i * RECORD + field::TURN, turn);
}

// The outcome of thread `i`, with its parcel.
pub fn set_outcome(t: &mut [u8], i: usize, o: Outcome, parcel: u32)
    requires { HasThread t.old i × Whole t.old }
    ensures { Becomes t.old t.new (on_threads (edit i (with_outcome o parcel))) }
{
    let base = i * RECORD;
    words::put_word(t, base + field::PARCEL, parcel);
    t[base + field::OUTCOME] = u8::from(o);
}

// The mailbox of thread `i`: full or empty, with its value.
pub fn set_mail(t: &mut [u8], i: usize, full: bool, value: u32)
    requires { HasThread t.old i × Whole t.old }
    ensures { Becomes t.old t.new (on_threads (edit i (with_mail full value))) }
{
    let base = i * RECORD;
    words::put_word(t, base + field::VALUE, value);
    t[base + field::FULL] = u8::from(full);
}

// WHAT A THREAD'S LINE GOES BY

// The wait of thread `i`: its kind, its object and its counter.
pub fn set_wait(t: &mut [u8], i: usize, w: Wait)
    requires { HasThread t.old i × Laid t.old }
    ensures { Changes t.old t.new (on_threads (edit i (with_wait w))) }
{
    let base = i * RECORD;
    words::put_word(t, base + field::COUNTER, counter_of(w));
    t[base + field::KIND] = kind_of(w);
    t[base + field::OBJECT] = object_of(w);
}

// Whether thread `i` is suspended.
pub fn set_suspended(t: &mut [u8], i: usize, suspended: bool)
    requires { HasThread t.old i × Laid t.old }
    ensures { Changes t.old t.new (on_threads (edit i (with_suspended suspended))) }
{
    t[i * RECORD + field::SUSPENDED] = u8::from(suspended);
}

// The priority of thread `i`.
pub fn set_priority(t: &mut [u8], i: usize, priority: u8)
    requires { HasThread t.old i × Laid t.old }
    ensures { Changes t.old t.new (on_threads (edit i (with_priority priority))) }
{
    t[i * RECORD + field::PRIORITY] = priority;
}

// Whether record `i` is in use.
fn set_used(t: &mut [u8], i: usize, used: bool)
    requires { HasThread t.old i × Laid t.old }
    ensures { Changes t.old t.new (on_threads (edit i (with_used used))) }
{
    t[i * RECORD + field::USED] = u8::from(used);
}

// Thread `i` becomes `th`.
pub fn store_thread(t: &mut [u8], i: usize, th: Thread)
    requires { HasThread t.old i × Whole t.old }
    ensures { Changes t.old t.new (on_threads (edit i (λ x. th))) }
{
    set_place(t, i, th.place);
    set_mail(t, i, th.full, th.value);
    set_outcome(t, i, th.outcome, th.parcel);
    set_turn(t, i, th.turn);
    set_used(t, i, th.used);
    set_priority(t, i, th.priority);
    set_suspended(t, i, th.suspended);
    set_wait(t, i, th.wait);
}

// Record `i` becomes free.
pub fn free_thread(t: &mut [u8], i: usize)
    requires { HasThread t.old i × Whole t.old }
    ensures { Changes t.old t.new (on_threads (edit i (λ x. free))) }
{
    store_thread(t, i, FREE);
}

// SEMAPHORES

// Semaphore `k`.
#[tactic(auto, using(layout::proofs::Boards::sem_told), unfolding(rules::specs::Table::sem_of, layout::specs::Bytes::record_at, layout::specs::Bytes::tabulate))]
pub fn load_sem(t: &[u8], k: usize) -> Sem
    requires { HasSem t.now k × Long t.now }
    ensures { (s : State) → said t.now ≡ s → result ≡ sem_at s.sems k }
{
    let base = boards::semaphore_from(t, k);
    Sem {
        used: t[base + field::USED] == 1,
        count: t[base + field::COUNT],
    }
}

// Semaphore `k` becomes `e`.
pub fn set_sem(t: &mut [u8], k: usize, e: Sem)
    requires { HasSem t.old k × Whole t.old }
    ensures { Becomes t.old t.new (on_sems (λ es. set es k e)) }
{
    let base = boards::semaphore_from(t, k);
    t[base + field::USED] = u8::from(e.used);
    t[base + field::COUNT] = e.count;
}

// THE KERNEL

// The running thread's number.
#[tactic(auto, using(layout::proofs::Boards::running_told))]
pub fn running(t: &[u8]) -> usize
    requires { Long t.now }
    ensures { (s : State) → said t.now ≡ s → result ≡ s.running }
{
    usize::from(t[boards::kernel_from(t) + field::RUNNING])
}

// The lock count.
#[tactic(auto, using(layout::proofs::Boards::lock_told))]
pub fn lock(t: &[u8]) -> u8
    requires { Long t.now }
    ensures { (s : State) → said t.now ≡ s → result ≡ s.lock }
{
    t[boards::kernel_from(t) + field::LOCK]
}

// Thread `i` runs.
pub fn set_running(t: &mut [u8], i: usize)
    requires { HasThread t.old i × Whole t.old }
    ensures { Becomes t.old t.new (with_running i) }
{
    let base = boards::kernel_from(t);
    // A thread's number fits in a byte, so `try_from` would have no refusal to give.
    t[base + field::RUNNING] = i as u8;
}

// The lock count becomes `n`.
pub fn set_lock(t: &mut [u8], n: u8)
    requires { Whole t.old }
    ensures { Becomes t.old t.new (with_lock n) }
{
    let base = boards::kernel_from(t);
    t[base + field::LOCK] = n;
}

// The ready word.
pub fn word(t: &[u8]) -> u32
    requires { Long t.now }
    ensures { result ≡ word_at t.now (word_from (board t.now)) }
{
    words::word_at(t, boards::kernel_from(t) + field::READY_WORD)
}

// The ready word becomes `word`.
pub fn set_word(t: &mut [u8], word: u32)
    requires { Laid t.old }
    ensures { (s : State) (w : ℕ) → Shows t.old s w → Shows t.new s word }
{
    let base = boards::kernel_from(t);
    words::put_word(t, base + field::READY_WORD, word);
}
