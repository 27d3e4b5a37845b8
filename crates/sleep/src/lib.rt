// Operations 21 and 22: many ticks at once, and the ticks until some timed wait ends.
//
// Ticks are not done one by one. A leap does some of them in one update: those before a wait ends, of a locked stretch, of whole rounds of the rank
// that runs, or of a turn that goes on. `leaps/specs` says what a leap is, and that it is as many single ticks.
#![tactic(auto)]

ghost use Rattle.std.specs.Prelude.{if◌then◌else◌, ◌≡◌, ◌-◌, ◌≤◌, ◌<◌, min};
ghost use Rattle.rules.specs.State.{State, at, edit, caller, counter_of};
ghost use Rattle.rules.specs.Lines.{ready, in_line};
ghost use Rattle.rules.specs.Sound.{Sound};
ghost use Rattle.rules.specs.Sleep.{do_ticks, time_left, sooner, nearest, do_nearest};
ghost use Rattle.layout.specs.Boards.{HasThread};
ghost use Rattle.layout.specs.Held.{Long, said, Holds, Whole, Becomes, on_threads};
ghost use Rattle.waiting.specs.Does.{Serves, Does};
ghost use Rattle.fairness.specs.Run.{sum_turns};
ghost use Rattle.leaps.specs.Ticks.{later, passed, ran, quiet_of, leap_unlocked, leap};

use rules::{Answer, MOST_TICKS, Refusal, Reply, Thread, Wait};

// THE NEAREST END

// The ticks that are left of a timed wait; 0 of any other.
fn time_left(w: Wait) -> u32
    ensures { result ≡ time_left w }
{
    if records::is_waiting(w) {
        records::counter_of(w)
    } else {
        0
    }
}

// The smaller of two, where 0 is none. It stays a number: the counter in the table says none by 0, and so does the answer of operation 22, so
// that an Option would be made of the one and unmade for the other.
fn sooner(a: u32, b: u32) -> u32
    ensures { result ≡ sooner a b }
{
    match (a, b) {
        (0, n) | (n, 0) => n,
        _ => a.min(b),
    }
}

// The ticks that are left of thread `i`'s wait.
fn left_of(t: &[u8], i: usize) -> u32
    requires { HasThread t.now i × Long t.now }
    ensures { (s : State) → said t.now ≡ s → result ≡ time_left (at s.threads i).wait }
{
    time_left(records::load_thread(t, i).wait)
}

// The ticks after which some timed wait ends; 0 where there is none.
fn nearest_end(t: &[u8]) -> u32
    requires { Long t.now }
    ensures { (s : State) → said t.now ≡ s → result ≡ nearest s.threads }
{
    let mut n = 0;
    for i in (0..boards::threads(t)).rev() {
        n = sooner(left_of(t, i), n);
    }
    n
}

#[tactic(auto, unfolding(rules::specs::Sleep::do_nearest))]
pub fn nearest(t: &[u8]) -> Answer
    requires { Serves t.now }
    ensures { Does t.now t.now result do_nearest }
{
    Ok(Reply::Done {
        value: nearest_end(t),
    })
}

// WHERE NO WAIT ENDS

// Of `n` ticks, those before the one in which a wait ends; none of a single tick, for which it is not worth looking.
fn quiet_of(t: &[u8], n: u32) -> u32
    requires { Long t.now }
    ensures { (s : State) → said t.now ≡ s → result ≡ quiet_of n s.threads }
{
    if n <= 1 {
        return 0;
    }
    match nearest_end(t) {
        0 => n,
        w => n.min(w - 1),
    }
}

// The wait of thread `i`, if it has one, `m` ticks later.
fn pass_one(t: &mut [u8], i: usize, m: u32)
    requires { HasThread t.old i × Whole t.old }
    ensures { Becomes t.old t.new (on_threads (edit i (later m))) }
{
    let w = records::load_thread(t, i).wait;
    if records::is_waiting(w) {
        let c = records::counter_of(w);
        records::set_counter(t, i, c.saturating_sub(m));
    }
}

// Every wait `m` ticks later.
fn pass(t: &mut [u8], m: u32)
    requires { Whole t.old }
    ensures { Becomes t.old t.new (passed m) }
{
    let threads = boards::threads(t);
    for i in 0..threads {
        pass_one(t, i, m);
    }
}

// THE RANK THAT RUNS

// A thread's turn, if it is ready at that priority; else 0.
fn turn_at(th: Thread, priority: u8) -> u32
    ensures { result ≡ (if in_line (ready priority) th then th.turn else 0) }
{
    if lines::in_rank(th, priority) {
        th.turn
    } else {
        0
    }
}

// The ticks of a round, what the turns of the threads that are ready at that priority sum to, if they are at most `most`; else a number above that.
fn round(t: &[u8], priority: u8, most: u32) -> u32
    requires { Long t.now × Sound (said t.now) }
    ensures exact { result ≤ most → result ≡ sum_turns priority (said t.now).threads }
    ensures above { most < result → most < sum_turns priority (said t.now).threads }
{
    // A sum by an iterator goes over all threads, and takes more stack than a loop that stops.
    let mut turns: u32 = 0;
    let threads = boards::threads(t);
    for j in 0..threads {
        if turns > most {
            return turns;
        }
        turns += turn_at(records::load_thread(t, j), priority);
    }
    turns
}

// A LEAP

// How many ticks were done at once, and how many whole rounds of the rank that runs they are: 0 where they are none.
#[derive(Clone, Copy)]
pub struct Leapt {
    pub far: u32,
    pub rounds: u32,
}

// `m` ticks of a turn that goes on, where thread `r` runs with `left` ticks of it left.
#[tactic(auto, unfolding(leaps::specs::Ticks::passed, leaps::specs::Ticks::ran))]
fn run_on(t: &mut [u8], r: usize, left: u32, m: u32)
    requires has_thread { HasThread t.old r × (m ≤ left) × Whole t.old }
    requires r_value { (s : State) → said t.old ≡ s → (r ≡ s.running) × (left ≡ counter_of (caller s).wait) }
    ensures { Becomes t.old t.new (ran m) }
{
    records::set_counter(t, r, left - m);
    pass(t, m);
}

// With lock 0, and where no wait ends within `q` ticks.
fn leap_unlocked(t: &mut [u8], q: u32) -> Leapt
    requires { Serves t.old }
    ensures leapt { (s : State) → Holds t.old s → (result.far ≡ (leap_unlocked q s).far) × (result.rounds ≡ (leap_unlocked q s).rounds) }
    ensures table { Becomes t.old t.new (λ s. (leap_unlocked q s).state) }
{
    let r = records::running(t);
    let th = records::load_thread(t, r);
    let whole = round(t, th.priority, q);
    if whole <= q {
        let rounds = q / whole;
        let far = rounds * whole;
        pass(t, far);
        return Leapt { far, rounds };
    }
    let left = records::counter_of(th.wait);
    if left <= 1 {
        let _ = time::tick(t);
        return Leapt { far: 1, rounds: 0 };
    }
    let far = q.min(left - 1);
    run_on(t, r, left, far);
    Leapt { far, rounds: 0 }
}

// Some of `n` ticks at once, at least one.
#[tactic(auto, unfolding(leaps::specs::Ticks::leap))]
pub fn leap(t: &mut [u8], n: u32) -> Leapt
    requires { Serves t.old × (1 ≤ n) }
    ensures leapt { (s : State) → Holds t.old s → (result.far ≡ (leap n s).far) × (result.rounds ≡ (leap n s).rounds) }
    ensures table { Becomes t.old t.new (λ s. (leap n s).state) }
{
    let q = quiet_of(t, n);
    if q == 0 {
        let _ = time::tick(t);
        return Leapt { far: 1, rounds: 0 };
    }
    if records::lock(t) > 0 {
        pass(t, q);
        return Leapt { far: q, rounds: 0 };
    }
    leap_unlocked(t, q)
}

// That many ticks.
#[tactic(auto, unfolding(rules::specs::Sleep::do_ticks))]
pub fn ticks(t: &mut [u8], n: u32) -> Answer
    requires { Serves t.old }
    ensures { Does t.old t.new result (λ s. do_ticks s n) }
{
    if n == 0 || n > MOST_TICKS {
        return Err(Refusal::BadTicks);
    }
    // No index is counted here: a leap says how many ticks it did.
    let mut left = n;
    while 0 < left {
        let l = leap(t, left);
        left -= l.far;
    }
    Ok(Reply::Done { value: 0 })
}
