// Threads: Yield, Create, Delete, Suspend, Resume, Delay, Cancel, Set priority, Set turn. Each operation tests its refusals in the documents'
// order, before the first write.
//
// The promises are those of crate `waiting`: `Becomes` for a change, `Does` for an operation.
#![tactic(auto)]

ghost use Rattle.std.specs.Prelude.{not, ◌&&◌, ◌≡◌, eqb};
ghost use Rattle.rules.specs.State.{is_ready};
ghost use Rattle.rules.specs.Threads.{do_yield, do_create, do_delete, do_suspend, do_resume, do_delay, do_cancel, do_set_priority, do_set_turn};
ghost use Rattle.waiting.specs.Does.{Serves, Does};

use rules::{Answer, Refusal, Thread, Wait};

mod changes;
mod refusals;

// Never refused; under lock nothing is done.
#[tactic(auto, unfolding(rules::specs::Threads::do_yield))]
pub fn yield_turn(t: &mut [u8]) -> Answer
    requires { Serves t.old }
    ensures { Does t.old t.new result do_yield }
{
    if records::lock(t) > 0 {
        return waiting::accept(t, 0);
    }
    let i = records::running(t);
    lines::to_tail(t, i);
    waiting::accept(t, 0)
}

// Refused in the order −2, −3, −1.
#[tactic(auto, unfolding(rules::specs::Threads::do_create), using(layout::proofs::Held::holds_sized))]
pub fn create(t: &mut [u8], i: u8, priority: u8, turn: u32) -> Answer
    requires { Serves t.old }
    ensures { Does t.old t.new result (λ s. do_create s i priority turn) }
{
    refusals::good_priority(priority)?;
    refusals::good_ticks(turn)?;
    let k = usize::from(i);
    if k >= boards::threads(t) || records::load_thread(t, k).used {
        return Err(Refusal::BadThread);
    }
    changes::create_thread(t, k, priority, turn);
    waiting::accept(t, 0)
}

// Refused in the order −1, −5.
#[tactic(auto, unfolding(rules::specs::Threads::do_delete))]
pub fn delete(t: &mut [u8], i: u8) -> Answer
    requires { Serves t.old }
    ensures { Does t.old t.new result (λ s. do_delete s i) }
{
    waiting::in_use(t, i)?;
    refusals::not_bound(t, i)?;
    changes::delete_thread(t, i);
    waiting::accept(t, 0)
}

// Refused in the order −1, −4, −5.
#[tactic(auto, unfolding(rules::specs::Threads::do_suspend))]
pub fn suspend(t: &mut [u8], i: u8) -> Answer
    requires { Serves t.old }
    ensures { Does t.old t.new result (λ s. do_suspend s i) }
{
    let th = waiting::in_use(t, i)?;
    if th.suspended {
        return Err(Refusal::BadState);
    }
    refusals::not_bound(t, i)?;
    let k = usize::from(i);
    if lines::is_ready(th) {
        changes::stop(t, k);
    } else {
        changes::edit_suspended(t, k, true);
    }
    waiting::accept(t, 0)
}

// Refused in the order −1, −4.
#[tactic(auto, unfolding(rules::specs::Threads::do_resume))]
pub fn resume(t: &mut [u8], i: u8) -> Answer
    requires { Serves t.old }
    ensures { Does t.old t.new result (λ s. do_resume s i) }
{
    let th = waiting::in_use(t, i)?;
    if !th.suspended {
        return Err(Refusal::BadState);
    }
    let k = usize::from(i);
    if records::is_waiting(th.wait) {
        changes::edit_suspended(t, k, false);
    } else {
        changes::restart(t, k);
    }
    waiting::accept(t, 0)
}

// Refused in the order −3, −5.
#[tactic(auto, unfolding(rules::specs::Threads::do_delay))]
pub fn delay(t: &mut [u8], n: u32) -> Answer
    requires { Serves t.old }
    ensures { Does t.old t.new result (λ s. do_delay s n) }
{
    refusals::good_ticks(n)?;
    waiting::may_wait(t)?;
    waiting::block(t, Wait::Delay { counter: n }, 0)
}

// A delay is broken off.
#[tactic(auto, unfolding(rules::specs::Threads::do_cancel, rules::specs::Threads::break_off))]
pub fn cancel(t: &mut [u8], i: u8) -> Answer
    requires { Serves t.old }
    ensures { Does t.old t.new result (λ s. do_cancel s i) }
{
    let th = records::thread_at(t, i);
    waiting::break_off(t, i, records::is_delaying(th.wait))
}

// Does a thread that is given that priority go to another line?
fn changes_line(th: Thread, priority: u8) -> bool
    ensures { result ≡ (is_ready th && not (eqb th.priority priority)) }
{
    lines::is_ready(th) && th.priority != priority
}

// Refused in the order −2, −1, −5.
#[tactic(auto, unfolding(rules::specs::Threads::do_set_priority))]
pub fn set_priority(t: &mut [u8], i: u8, priority: u8) -> Answer
    requires { Serves t.old }
    ensures { Does t.old t.new result (λ s. do_set_priority s i priority) }
{
    refusals::good_priority(priority)?;
    let th = waiting::in_use(t, i)?;
    if i == 0 {
        return Err(Refusal::BadOperation);
    }
    let k = usize::from(i);
    if changes_line(th, priority) {
        changes::move_priority(t, k, priority);
    } else {
        changes::edit_priority(t, k, priority);
    }
    waiting::accept(t, 0)
}

// Refused in the order −3, −1, −5.
#[tactic(auto, unfolding(rules::specs::Threads::do_set_turn))]
pub fn set_turn(t: &mut [u8], i: u8, turn: u32) -> Answer
    requires { Serves t.old }
    ensures { Does t.old t.new result (λ s. do_set_turn s i turn) }
{
    refusals::good_ticks(turn)?;
    waiting::in_use(t, i)?;
    if i == 0 {
        return Err(Refusal::BadOperation);
    }
    changes::edit_turn(t, usize::from(i), turn);
    waiting::accept(t, 0)
}
