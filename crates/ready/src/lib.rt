// The ready word: bit p is set exactly when ready line p has a member. A record whose thread goes from one line to another takes its bit
// along, and with lock 0 the first of the highest line runs.
//
// A thread goes in three steps (`moved`): it leaves its line, its record is changed, and it joins the line that it then belongs to. `leave` gives
// back the bit that goes with it, which `mend` is handed, so that nobody looks at all threads once more.
#![tactic(auto)]

ghost use Rattle.std.specs.Prelude.{◌≡◌, ℕ, ◌+◌, ◌^◌, ◌≤◌, ◌<◌};
ghost use Rattle.rules.specs.Board.{top_priority};
ghost use Rattle.rules.specs.State.{State, at};
ghost use Rattle.rules.specs.Lines.{ready, is_first, leave, move, top, settle};
ghost use Rattle.rules.specs.declared.Thread.{Thread};
ghost use Rattle.layout.specs.Boards.{HasThread};
ghost use Rattle.layout.specs.Held.{said, Holds, Whole, Becomes, Shows, Laid, on_threads};
ghost use Rattle.ready.specs.Word.{ready_bit, last_bit, Mends};
ghost use Rattle.ready.specs.Change.{ChangesThread};

use marks::Line;
use rules::{TOP_PRIORITY, Thread};

// A THREAD'S BIT

// The bit of the ready line that a thread stands in; 0 where it stands in none.
pub fn ready_bit(th: Thread) -> u32
    ensures { result ≡ ready_bit th }
{
    if lines::is_ready(th) && th.priority <= TOP_PRIORITY {
        1 << u32::from(th.priority)
    } else {
        0
    }
}

// Thread `i` leaves its line, and whoever stands behind it moves up. If it stood alone in a ready line, that line's bit is given back, else 0.
pub fn leave(t: &mut [u8], i: usize) -> u32
    requires { HasThread t.old i × Whole t.old }
    ensures left { (s : State) → said t.new ≡ s → result ≡ last_bit i s.threads }
    ensures table { Becomes t.old t.new (on_threads (leave i)) }
{
    let stood = lines::leave(t, i);
    if stood == 1 {
        ready_bit(records::load_thread(t, i))
    } else {
        0
    }
}

// A THREAD GOES FROM LINE TO LINE

// The word loses the bit `left`, and has that of thread `i`.
fn mend(t: &mut [u8], i: usize, left: u32)
    requires { HasThread t.old i × Laid t.old × Mends t.old i left }
    ensures { (s : State) (w : ℕ) → Shows t.old s w → Holds t.new s }
{
    let th = records::load_thread(t, i);
    let others = records::word(t) - left;
    let own = ready_bit(th);
    records::set_word(t, others | own);
}

// Thread `i` leaves its line, `change` changes its record, and it joins the tail of the line that it then belongs to. The place that it has
// there is given back.
pub fn moved<F: FnOnce(&mut [u8])>(t: &mut [u8], i: usize, change: F) -> u8
    requires table { HasThread t.old i × Whole t.old }
    requires change { (rule : Thread → Thread) × ChangesThread F.FnOnce change i rule }
    ensures place { (s : State) → said t.new ≡ s → result ≡ (at s.threads i).place }
    ensures whole { Whole t.new }
    ensures table { (rule : Thread → Thread) → ChangesThread F.FnOnce change i rule → Becomes t.old t.new (on_threads (move i rule)) }
{
    let left = leave(t, i);
    change(t);
    mend(t, i, left);
    lines::join(t, i)
}

// THE THREAD THAT RUNS

// Order 6: "find the top line by the count of leading zeros of that word". A word that is not 0 has its highest bit right below them. They are at
// most 31, so that a cast is enough.
pub fn highest(word: u32) -> u8
    requires { 1 ≤ word }
    ensures { (result ≤ top_priority) × (2 ^ result ≤ word) × (word < 2 ^ (result + 1)) }
{
    TOP_PRIORITY - u32::leading_zeros(word) as u8
}

// Is thread `j` the first of the ready line of priority `p`?
fn leads_ready(t: &[u8], j: usize, p: u8) -> bool
    requires { HasThread t.now j × Whole t.now }
    ensures { (s : State) → said t.now ≡ s → result ≡ is_first (ready p) (at s.threads j) }
{
    marks::has_mark(t, j, marks::first_mark(Line::Ready { priority: p }))
}

// The first of the highest ready line that is not empty. The word names that line, and in a sound table somebody is first there; the rule speaks
// of every table, so where nobody is, the line below is looked at. Loops over priorities and threads, left by a labelled break that gives the
// thread's number: document 01 wants that form here.
pub fn top_thread(t: &[u8]) -> usize
    requires { Whole t.now }
    ensures { HasThread t.now result × ((s : State) → said t.now ≡ s → result ≡ top s.threads) }
{
    let word = records::word(t);
    if word == 0 {
        return 0;
    }
    let threads = boards::threads(t);
    'found: {
        for p in (0..highest(word) + 1).rev() {
            for j in 0..threads {
                if leads_ready(t, j, p) {
                    break 'found j;
                }
            }
        }
        0
    }
}

// With lock 0 the first of the highest ready line runs.
pub fn settle(t: &mut [u8])
    requires { Whole t.old }
    ensures { Becomes t.old t.new settle }
{
    if records::lock(t) != 0 {
        return;
    }
    let i = top_thread(t);
    records::set_running(t, i);
}
