// The lines of threads, in place: who stands where, who is first, and what becomes of the places when one leaves or joins.
//
// The promises are those of crate `records`: one that reads gives what the table says, and one that writes asks for a whole
// table and says by `Becomes` what the table holds then. The members of a line are known by its mark.
#![tactic(auto)]

ghost use Rattle.std.specs.Prelude.{if◌then◌else◌, ◌≡◌, ℕ, ◌*◌, ◌^◌, ◌≤◌, ◌<◌, map, IfSome};
ghost use Rattle.rules.specs.State.{State, at, is_ready, edit, with_place};
ghost use Rattle.rules.specs.Lines.{ready, in_line, line_length, is_first, first, move_up, leave, filled, tail_place, join, move};
ghost use Rattle.layout.specs.Boards.{HasThread};
ghost use Rattle.layout.specs.Held.{said, Holds, Whole, Becomes, on_threads};
ghost use Rattle.marks.specs.Named.{named};
ghost use Rattle.marks.specs.Numbers.{line_number};
ghost use Rattle.marks.specs.Marks.{mark_of};
ghost use Rattle.lines.specs.First.{first_if_any};

use marks::{Line, Mark};
use rules::Thread;

// "A thread is ready when in use, not suspended, not waiting."
pub fn is_ready(th: Thread) -> bool
    ensures { result ≡ is_ready th }
{
    th.used && !th.suspended && !records::is_waiting(th.wait)
}

// Is the thread ready, at that priority?
pub fn in_rank(th: Thread, priority: u8) -> bool
    ensures { result ≡ in_line (ready priority) th }
{
    is_ready(th) && th.priority == priority
}

// HOW MANY STAND IN A LINE

// A count is kept as a power of 2, which is doubled for each that counts: a sum would be taken apart over more registers than there are.
fn counted(power: u64, counts: bool) -> u64
    requires { power < 2 ^ 63 }
    ensures { result ≡ (if counts then 2 * power else power) }
{
    if counts { 2 * power } else { power }
}

// The count that a power of 2 stands for: at most 63, so that a cast is enough.
fn exponent(power: u64) -> u8
    requires { 1 ≤ power }
    ensures { (n : ℕ) → power ≡ 2 ^ n → result ≡ n }
{
    (63 - u64::leading_zeros(power)) as u8
}

// How many threads stand in the line. The table is lent anew at each look: with `t` itself the compiler keeps where it stands on the stack.
pub fn length(t: &[u8], line: Line) -> u8
    requires { Whole t.now }
    ensures { (s : State) → said t.now ≡ s → result ≡ line_length (named line) s.threads }
{
    let m = marks::line_mark(line);
    let mut power: u64 = 1;
    let threads = boards::threads(&t[..]);
    for j in 0..threads {
        power = counted(power, marks::has_mark(&t[..], j, m));
    }
    exponent(power)
}

// The same for the line of that number. A loop of its own: the kernel's stack goes by how the one above is compiled (docs/DECISIONS.md).
pub fn line_length(t: &[u8], line: u16) -> u8
    requires { Whole t.now }
    ensures { (s : State) (l : _) → said t.now ≡ s → line ≡ line_number l → result ≡ line_length l s.threads }
{
    let m = marks::mark_of(line);
    let mut power: u64 = 1;
    let threads = boards::threads(t);
    for j in 0..threads {
        power = counted(power, marks::has_mark(t, j, m));
    }
    exponent(power)
}

// WHO IS FIRST

// Which thread is the line's first, if it has one.
pub fn first_if_any(t: &[u8], line: Line) -> Option<usize>
    requires { Whole t.now }
    ensures thread { IfSome result (HasThread t.now) }
    ensures first { (s : State) → said t.now ≡ s → result ≡ first_if_any (named line) s.threads }
{
    let m = marks::first_mark(line);
    let threads = boards::threads(&t[..]);
    (0..threads).find(|j| marks::has_mark(&t[..], *j, m))
}

// Is thread `j` the first of the line whose mark is given?
fn leads(t: &[u8], j: usize, m: Mark) -> bool
    requires { HasThread t.now j × Whole t.now }
    ensures { (s : State) (l : _) → said t.now ≡ s → m ≡ mark_of l → result ≡ is_first l (at s.threads j) }
{
    marks::has_mark(t, j, m) && records::load_thread(t, j).place == 1
}

// Which thread is the first of the line of that number; where it has none, the number of threads.
pub fn first_of(t: &[u8], line: u16) -> usize
    requires { Whole t.now }
    ensures { (s : State) (l : _) → said t.now ≡ s → line ≡ line_number l → result ≡ first l s.threads }
{
    let m = marks::mark_of(line);
    let threads = boards::threads(t);
    for j in 0..threads {
        if leads(t, j, m) {
            return j;
        }
    }
    threads
}

// A THREAD LEAVES ITS LINE

// Thread `j` moves up if it stands behind that place of the line whose mark is given. If it stands there at all, the power is doubled.
fn move_up(t: &mut [u8], j: usize, m: Mark, place: u8, power: u64) -> u64
    requires { HasThread t.old j × Whole t.old × (power < 2 ^ 63) }
    ensures bounds { (power ≤ result) × (result ≤ 2 * power) }
    ensures whole { Whole t.new }
    ensures count { (s : State) (l : _) → Holds t.old s → m ≡ mark_of l → result ≡ (if in_line l (at s.threads j) then 2 * power else power) }
    ensures table { (l : _) → m ≡ mark_of l → Becomes t.old t.new (on_threads (edit j (move_up l place))) }
{
    if !marks::has_mark(t, j, m) {
        return power;
    }
    let th = records::load_thread(t, j);
    let own = th.place;
    if own <= place {
        return 2 * power;
    }
    records::set_place(t, j, own - 1);
    2 * power
}

// Whoever stands behind that place of the line moves up. How many stand in the line is given back.
fn close_gap(t: &mut [u8], line: Line, place: u8) -> u8
    requires { Whole t.old }
    ensures count { (s : State) → Holds t.old s → result ≡ line_length (named line) s.threads }
    ensures table { Becomes t.old t.new (on_threads (map (move_up (named line) place))) }
{
    let m = marks::line_mark(line);
    let mut power: u64 = 1;
    let threads = boards::threads(t);
    for j in 0..threads {
        power = move_up(t, j, m, place, power);
    }
    exponent(power)
}

// Thread `i` leaves its line, and whoever stands behind it moves up. How many stood in the line is given back; 0 where it is none.
pub fn leave(t: &mut [u8], i: usize) -> u8
    requires { HasThread t.old i × Whole t.old }
    ensures count { (s : State) → said t.old ≡ s → result ≡ tail_place i s.threads }
    ensures table { Becomes t.old t.new (on_threads (leave i)) }
{
    let th = records::load_thread(t, i);
    let line = marks::line_of(th);
    let place = th.place;
    records::set_place(t, i, 0);
    match line {
        Some(line) => close_gap(t, line, place),
        None => 0,
    }
}

// A THREAD JOINS A LINE

// Thread `i` takes a full counter if it is ready.
pub fn fill(t: &mut [u8], i: usize)
    requires { HasThread t.old i × Whole t.old }
    ensures { Becomes t.old t.new (on_threads (edit i filled)) }
{
    let th = records::load_thread(t, i);
    if is_ready(th) {
        records::set_counter(t, i, th.turn);
    }
}

// Thread `i` takes that place of its line, with a full counter if it is ready.
fn stand_at(t: &mut [u8], i: usize, place: u8)
    requires { HasThread t.old i × Whole t.old }
    ensures { Becomes t.old t.new (on_threads (edit i (λ x. filled (with_place place x)))) }
{
    records::set_place(t, i, place);
    fill(t, i);
}

// Thread `i`, which has no place, joins the tail of the line that its record names. The place that it takes is given back.
pub fn join(t: &mut [u8], i: usize) -> u8
    requires { HasThread t.old i × Whole t.old }
    ensures place { (s : State) → said t.old ≡ s → result ≡ tail_place i s.threads }
    ensures table { Becomes t.old t.new (on_threads (join i)) }
{
    let th = records::load_thread(t, i);
    let place = marks::line_of(th).map_or(0, |line| length(t, line));
    stand_at(t, i, place);
    place
}

// Thread `i` goes to the tail of its line with a full counter.
pub fn to_tail(t: &mut [u8], i: usize)
    requires { HasThread t.old i × Whole t.old }
    ensures { Becomes t.old t.new (on_threads (move i (λ x. x))) }
{
    let last = leave(t, i);
    stand_at(t, i, last);
}
