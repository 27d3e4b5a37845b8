// The scheduler lock, the tick, and Outcome.
#![tactic(auto)]

ghost use Rattle.std.specs.Prelude.{◌≡◌, length};
ghost use Rattle.rules.specs.State.{with_threads};
ghost use Rattle.rules.specs.Time.{do_lock, do_unlock, charge, charged, timed_out, count_down, timeouts, do_tick, outcome_answer, do_outcome};
ghost use Rattle.layout.specs.Boards.{HasThread};
ghost use Rattle.layout.specs.Held.{Whole, Becomes, on_threads};
ghost use Rattle.waiting.specs.Does.{Serves, Does};

use rules::{Answer, MOST_LOCK, Outcome, Refusal, Reply, Wait};

// THE LOCK

// "Lock −5 at 255."
#[tactic(auto, unfolding(rules::specs::Time::do_lock))]
pub fn lock(t: &mut [u8]) -> Answer
    requires { Serves t.old }
    ensures { Does t.old t.new result do_lock }
{
    let n = records::lock(t);
    if n >= MOST_LOCK {
        return Err(Refusal::BadOperation);
    }
    records::set_lock(t, n + 1);
    waiting::accept(t, 0)
}

// "Unlock −5 at 0."
#[tactic(auto, unfolding(rules::specs::Time::do_unlock))]
pub fn unlock(t: &mut [u8]) -> Answer
    requires { Serves t.old }
    ensures { Does t.old t.new result do_unlock }
{
    let n = records::lock(t)
        .checked_sub(1)
        .ok_or(Refusal::BadOperation)?;
    records::set_lock(t, n);
    waiting::accept(t, 0)
}

// THE TICK

// Thread `r`, which runs, is charged: its counter less 1 and, if that gives 0, the tail of its line with a full counter.
#[tactic(auto, unfolding(rules::specs::Time::charge))]
fn charge(t: &mut [u8], r: usize)
    requires { HasThread t.old r × Whole t.old }
    ensures { Becomes t.old t.new (on_threads (charge r)) }
{
    let c = records::counter_of(records::load_thread(t, r).wait);
    if c <= 1 {
        lines::to_tail(t, r);
    } else {
        records::set_counter(t, r, c - 1);
    }
}

// With lock 0 the running thread is charged.
#[tactic(auto, unfolding(rules::specs::Time::charged))]
fn charged(t: &mut [u8])
    requires { Serves t.old }
    ensures { Becomes t.old t.new (λ s. with_threads (charged s) s) }
{
    if records::lock(t) > 0 {
        return;
    }
    let r = records::running(t);
    charge(t, r);
}

// How a wait ends whose time is up: a delay is done, any other fails.
fn timed_out(w: Wait) -> Outcome
    ensures { result ≡ timed_out w }
{
    match w {
        Wait::Delay { .. } => Outcome::Done,
        _ => Outcome::Failed,
    }
}

// The wait of thread `i` counts down, if it has a counter above 0, and at 0 ends.
#[tactic(auto, unfolding(rules::specs::Time::count_down))]
fn count_down(t: &mut [u8], i: usize)
    requires { HasThread t.old i × Whole t.old }
    ensures { Becomes t.old t.new (on_threads (count_down i)) }
{
    let w = records::load_thread(t, i).wait;
    if !records::is_waiting(w) {
        return;
    }
    match records::counter_of(w) {
        0 => {}
        1 => waiting::end_wait(t, i, timed_out(w), 0),
        c => records::set_counter(t, i, c - 1),
    }
}

// Every wait counts down, by thread number.
#[tactic(auto, unfolding(rules::specs::Time::timeouts))]
fn timeouts(t: &mut [u8])
    requires { Whole t.old }
    ensures { Becomes t.old t.new (on_threads (λ ts. timeouts (length ts) ts)) }
{
    let threads = boards::threads(t);
    for i in 0..threads {
        count_down(t, i);
    }
}

pub fn tick(t: &mut [u8]) -> Answer
    requires { Serves t.old }
    ensures { Does t.old t.new result do_tick }
{
    charged(t);
    timeouts(t);
    waiting::accept(t, 0)
}

// OUTCOME

// An outcome as the answer to one who asks for it, with the parcel if it is done.
fn outcome_answer(outcome: Outcome, parcel: u32) -> Answer
    ensures { result ≡ outcome_answer outcome parcel }
{
    Ok(match outcome {
        Outcome::Done => Reply::Done { value: parcel },
        Outcome::NoneYet => Reply::NoneYet,
        Outcome::Failed => Reply::Failed,
    })
}

#[tactic(auto, unfolding(rules::specs::Time::do_outcome))]
pub fn outcome(t: &[u8], i: u8) -> Answer
    requires { Serves t.now }
    ensures { Does t.now t.now result (λ s. do_outcome s i) }
{
    let th = waiting::in_use(t, i)?;
    outcome_answer(th.outcome, th.parcel)
}
