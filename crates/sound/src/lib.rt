// Is a table sound? Every record is tested once, in place. The line and the place of each thread are noted on the way, and at the end each
// is held against all others, and their bits together against the ready word.
#![tactic(auto)]

ghost use Rattle.std.specs.Prelude.{◌≡◌, true, ◌↔◌, ◌+◌, ◌^◌, ◌≤◌, ◌<◌};
ghost use Rattle.rules.specs.Basic.{all_below};
ghost use Rattle.rules.specs.State.{State, at};
ghost use Rattle.rules.specs.Lines.{line};
ghost use Rattle.rules.specs.Test.{init_ok, kernel_ok, sound_table};
ghost use Rattle.layout.specs.Boards.{HasThread, HasSem};
ghost use Rattle.layout.specs.Held.{board, Long, said};
ghost use Rattle.marks.specs.Numbers.{line_number};
ghost use Rattle.ready.specs.Word.{ready_bit};
ghost use Rattle.sound.specs.Tested.{Decides, is_good, bit_in, Noted, Passes, Threads, sem_test};

use rules::{MOST_COUNT, Thread};

mod used;

// ONE THREAD

// The number of a thread's line, in a byte, by a cast: who calls knows that it fits. A number, since lines are compared by the byte (`places`).
fn number_of(th: Thread) -> u8
    requires { line_number (line th) < 256 }
    ensures { result ≡ line_number (line th) }
{
    marks::number_of(marks::line_of(th)) as u8
}

// Is thread `i` sound, whoever else stands in its line? If it is, its line and its place are noted, and its bit in the ready word is given
// back.
fn thread_ok(t: &[u8], i: usize, noted: &mut places::Noted) -> Option<u32>
    requires { HasThread t.now i × Long t.now }
    ensures { (s : State) → said t.now ≡ s → Noted noted.old s.threads i
        → Decides (is_good result) t.now (Passes t.now s i)
        × (is_good result ≡ true → Noted noted.new s.threads (i + 1) × (bit_in result ≡ ready_bit (at s.threads i))) }
{
    let th = records::load_thread(t, i);
    if !th.used {
        return if canon::thread_zero(t, i) {
            Some(0)
        } else {
            None
        };
    }
    if !canon::thread_canon(t, i) || !used::used_ok(t, i, th) {
        return None;
    }
    noted.note(i, number_of(th), th.place);
    Some(ready::ready_bit(th))
}

// ALL THREADS

// Are all threads sound, and is the ready word that of their lines? A function of its own: compiled into the door, what is noted would stand on
// the stack below every operation.
#[inline(never)]
fn threads_ok(t: &[u8]) -> bool
    requires { Long t.now }
    ensures { (s : State) → said t.now ≡ s → Decides result t.now (Threads t.now s) }
{
    let mut noted = places::Noted::new();
    let mut word: u32 = 0;
    let n = boards::threads(&t[..]);
    for i in 0..n {
        let Some(bit) = thread_ok(&t[..], i, &mut noted) else {
            return false;
        };
        word |= bit;
    }
    word == records::word(&t[..]) && noted.all_placed(n)
}

// SEMAPHORES, AND WHO RUNS

#[tactic(auto, unfolding(crate::specs::Tested::sem_test, rules::specs::Test::sem_ok))]
fn sem_ok(t: &[u8], k: usize) -> bool
    requires { HasSem t.now k × Long t.now }
    ensures { (s : State) → said t.now ≡ s → result ≡ sem_test t.now s k }
{
    let e = records::load_sem(t, k);
    canon::sem_canon(t, k) && e.count <= MOST_COUNT && (e.used || e.count == 0)
}

fn sems_ok(t: &[u8]) -> bool
    requires { Long t.now }
    ensures { (s : State) → said t.now ≡ s → result ≡ all_below (board t.now).sems (sem_test t.now s) }
{
    (0..boards::semaphores(t)).all(|k| sem_ok(t, k))
}

#[tactic(auto, unfolding(rules::specs::Test::init_ok))]
fn init_ok(t: &[u8]) -> bool
    requires { Long t.now }
    ensures { (s : State) → said t.now ≡ s → result ≡ init_ok (at s.threads 0) }
{
    let th = records::load_thread(t, 0);
    lines::is_ready(th) && th.priority == 0
}

// Is that priority the highest of all whose bit is set in the word?
fn is_top(word: u32, priority: u8) -> bool
    ensures { (result ≡ true) ↔ ((2 ^ priority ≤ word) × (word < 2 ^ (priority + 1))) }
{
    word != 0 && ready::highest(word) == priority
}

// Are all threads sound, the ready word, and the thread that runs?
fn runs_ok(t: &[u8]) -> bool
    requires { Long t.now }
    ensures { (s : State) → said t.now ≡ s → Decides result t.now (Threads t.now s × (kernel_ok s ≡ true)) }
{
    let i = records::running(t);
    if i >= boards::threads(t) {
        return false;
    }
    let th = records::load_thread(t, i);
    if !lines::is_ready(th) {
        return false;
    }
    if records::lock(t) == 0 && (th.place != 1 || !is_top(records::word(t), th.priority)) {
        return false;
    }
    threads_ok(t)
}

// Is the table sound?
pub fn sound(t: &[u8]) -> bool
    ensures { result ≡ sound_table (board t.now) t.now }
{
    boards::is_long(t) && canon::kernel_canon(t) && sems_ok(t) && init_ok(t) && runs_ok(t)
}
