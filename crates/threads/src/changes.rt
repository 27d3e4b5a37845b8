// What operations on threads change, in place: one thread's record, between the line that it leaves and the line that it joins. What they share
// stands in `ready::moved`; each names its own rule, in a line, so that no two are made one.
ghost use Rattle.std.specs.Prelude.{false, ◌≡◌};
ghost use Rattle.rules.specs.State.{State, at, edit, with_suspended, with_priority, with_turn};
ghost use Rattle.rules.specs.Lines.{line, filled, move};
ghost use Rattle.rules.specs.Threads.{created, deleted, stopped};
ghost use Rattle.layout.specs.Boards.{HasThread};
ghost use Rattle.layout.specs.Held.{said, Whole, Becomes, Changes, on_threads};

use marks::Line;
use rules::{Outcome, Thread, Wait};

// Thread `i` is created, ready, with an empty mailbox.
pub fn create_thread(t: &mut [u8], i: usize, priority: u8, turn: u32)
    requires { HasThread t.old i × Whole t.old }
    ensures { Becomes t.old t.new (on_threads (move i (λ x. created priority turn))) }
{
    let new = Thread {
        used: true,
        priority,
        suspended: false,
        wait: Wait::Nothing { counter: 0 },
        place: 0,
        full: false,
        outcome: Outcome::NoneYet,
        turn,
        value: 0,
        parcel: 0,
    };
    ready::moved(t, i, |t| records::store_thread(t, i, new));
}

// Thread `i` is deleted: its record is free, and the waits of those who send to it end.
pub fn delete_thread(t: &mut [u8], i: u8)
    requires { HasThread t.old i × Whole t.old }
    ensures { Becomes t.old t.new (on_threads (deleted i)) }
{
    let k = usize::from(i);
    let line = Line::Senders { thread: i };
    let n = lines::length(t, line);
    ready::moved(t, k, |t| records::free_thread(t, k));
    waiting::serve(t, n, line, Outcome::Failed);
}

// Thread `i`, which is suspended or resumed while it waits, stays in its line.
pub fn edit_suspended(t: &mut [u8], i: usize, suspended: bool)
    requires { HasThread t.old i × Whole t.old × ((s : State) → said t.old ≡ s → line (with_suspended suspended (at s.threads i)) ≡ line (at s.threads i)) }
    ensures { Becomes t.old t.new (on_threads (edit i (with_suspended suspended))) }
{
    records::set_suspended(t, i, suspended);
}

// Thread `i`'s record is suspended, with counter 0.
fn set_stopped(t: &mut [u8], i: usize)
    requires { HasThread t.old i × Whole t.old }
    ensures { Changes t.old t.new (on_threads (edit i stopped)) }
{
    records::set_suspended(t, i, true);
    records::set_wait(t, i, Wait::Nothing { counter: 0 });
}

// Thread `i`, which is ready, is suspended: it leaves its line with counter 0.
pub fn stop(t: &mut [u8], i: usize)
    requires { HasThread t.old i × Whole t.old }
    ensures { Becomes t.old t.new (on_threads (move i stopped)) }
{
    ready::moved(t, i, |t| set_stopped(t, i));
}

// Thread `i`, which waits for nothing, is resumed.
pub fn restart(t: &mut [u8], i: usize)
    requires { HasThread t.old i × Whole t.old }
    ensures { Becomes t.old t.new (on_threads (move i (with_suspended false))) }
{
    ready::moved(t, i, |t| records::set_suspended(t, i, false));
}

// Thread `i` is given a priority, and goes to the new line's tail.
pub fn move_priority(t: &mut [u8], i: usize, priority: u8)
    requires { HasThread t.old i × Whole t.old }
    ensures { Becomes t.old t.new (on_threads (move i (with_priority priority))) }
{
    ready::moved(t, i, |t| records::set_priority(t, i, priority));
}

// Thread `i` is given a priority that leaves it in its line.
pub fn edit_priority(t: &mut [u8], i: usize, priority: u8)
    requires { HasThread t.old i × Whole t.old × ((s : State) → said t.old ≡ s → line (with_priority priority (at s.threads i)) ≡ line (at s.threads i)) }
    ensures { Becomes t.old t.new (on_threads (edit i (with_priority priority))) }
{
    records::set_priority(t, i, priority);
}

// Thread `i` is given a turn; if it is ready it takes a full counter.
pub fn edit_turn(t: &mut [u8], i: usize, turn: u32)
    requires { HasThread t.old i × Whole t.old }
    ensures { Becomes t.old t.new (on_threads (edit i (λ x. filled (with_turn turn x)))) }
{
    records::set_turn(t, i, turn);
    lines::fill(t, i);
}
