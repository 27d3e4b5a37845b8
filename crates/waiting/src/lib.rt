// How a wait begins and ends, and how a step ends, in place on the lent table. A wait of every kind goes through here.
//
// `Becomes` says of a rule that a table that held a state now holds what the rule makes of it; `Does` says the same of an operation's
// rule, and that the answer is the rule's too.
#![tactic(auto)]

ghost use Rattle.std.specs.Prelude.{if◌then◌else◌, true, ◌≡◌, ℕ, Ok, Err, OnOk};
ghost use Rattle.rules.specs.State.{State, at, waiting, edit, with_wait, with_outcome};
ghost use Rattle.rules.specs.Lines.{move};
ghost use Rattle.rules.specs.Waiting.{accept, end_wait, serve, block, may_not_wait, wait_counter, must_wait};
ghost use Rattle.rules.specs.Threads.{no_thread, break_off};
ghost use Rattle.rules.specs.declared.Wait.{Wait};
ghost use Rattle.rules.specs.declared.Refusal.TheVariants.{BadThread, BadOperation};
ghost use Rattle.layout.specs.Boards.{HasThread};
ghost use Rattle.layout.specs.Held.{Long, said, Whole, Becomes, Changes, on_threads};
ghost use Rattle.marks.specs.Named.{named};
ghost use Rattle.waiting.specs.Does.{Serves, Does};

use marks::Line;
use rules::{Answer, MOST_TICKS, Outcome, Refusal, Reply, Thread, Wait};

// THE END OF A STEP

// A step that is accepted: the thread that then runs is settled, and the answer is `value`.
pub fn accept(t: &mut [u8], value: u32) -> Answer
    requires { Whole t.old }
    ensures { Does t.old t.new result (λ s. accept s value) }
{
    ready::settle(t);
    Ok(Reply::Done { value })
}

// A WAIT ENDS

// Thread `i`'s record has the wait `w`, with that outcome and parcel.
fn write_wait(t: &mut [u8], i: usize, w: Wait, outcome: Outcome, parcel: u32)
    requires { HasThread t.old i × Whole t.old }
    ensures { Changes t.old t.new (on_threads (edit i (λ x. with_outcome outcome parcel (with_wait w x)))) }
{
    records::set_outcome(t, i, outcome, parcel);
    records::set_wait(t, i, w);
}

// Thread `i` leaves its line, its wait becomes `w` with that outcome and parcel, and it joins the line that it then belongs to. The place
// that it has there is given back.
fn change_wait(t: &mut [u8], i: usize, w: Wait, outcome: Outcome, parcel: u32) -> u8
    requires { HasThread t.old i × Whole t.old }
    ensures place { (s : State) → said t.new ≡ s → result ≡ (at s.threads i).place }
    ensures table { Becomes t.old t.new (on_threads (move i (λ x. with_outcome outcome parcel (with_wait w x)))) }
{
    ready::moved(t, i, |t| write_wait(t, i, w, outcome, parcel))
}

// The wait of thread `i` ends: it leaves its line, and enters its ready line if it is not suspended.
#[tactic(auto, unfolding(rules::specs::Waiting::end_wait))]
pub fn end_wait(t: &mut [u8], i: usize, outcome: Outcome, parcel: u32)
    requires { HasThread t.old i × Whole t.old }
    ensures { Becomes t.old t.new (on_threads (end_wait i outcome parcel)) }
{
    change_wait(t, i, Wait::Nothing { counter: 0 }, outcome, parcel);
}

// The first of a line is served: its wait ends. Where the line has no first, nothing is done.
fn serve_first(t: &mut [u8], line: Line, outcome: Outcome)
    requires { Whole t.old }
    ensures { Becomes t.old t.new (on_threads (serve 1 (named line) outcome)) }
{
    if let Some(i) = lines::first_if_any(t, line) {
        end_wait(t, i, outcome, 0);
    }
}

// The first `n` threads of a line are served, in line order.
pub fn serve(t: &mut [u8], n: u8, line: Line, outcome: Outcome)
    requires { Whole t.old }
    ensures { Becomes t.old t.new (on_threads (serve n (named line) outcome)) }
{
    for k in 0..n {
        serve_first(t, line, outcome);
    }
}

// A WAIT IS BROKEN OFF

// Thread `i`, if it is in use. "Thread number above 15, or free" is refused by −1.
pub fn in_use(t: &[u8], i: u8) -> Result<Thread, Refusal>
    requires { Long t.now }
    ensures thread { (s : State) → said t.now ≡ s → result ≡ (if no_thread s i then Err BadThread else Ok (at s.threads i)) }
    ensures on_board { OnOk result (HasThread t.now i) }
{
    let th = records::thread_at(t, i);
    if th.used {
        Ok(th)
    } else {
        Err(Refusal::BadThread)
    }
}

// The wait of thread `i` ends with −5, where `named` says whether it is of the kind that the operation names. Refused in the order −1, −4.
// It stays a flag: both callers have the thread at hand, and what a closure must promise is longer than the test that it would stand for.
#[tactic(auto, unfolding(rules::specs::Threads::break_off))]
pub fn break_off(t: &mut [u8], i: u8, named: bool) -> Answer
    requires { Serves t.old }
    ensures { Does t.old t.new result (λ s. break_off (λ w. named) s i) }
{
    in_use(t, i)?;
    if !named {
        return Err(Refusal::BadState);
    }
    end_wait(t, usize::from(i), Outcome::Failed, 0);
    accept(t, 0)
}

// A WAIT BEGINS

// "The caller is Init or the lock is on": refused by −5.
pub fn may_wait(t: &[u8]) -> Result<(), Refusal>
    requires { Long t.now }
    ensures { (s : State) → said t.now ≡ s → result ≡ (if may_not_wait s then Err BadOperation else Ok tt) }
{
    if records::running(t) == 0 || records::lock(t) > 0 {
        return Err(Refusal::BadOperation);
    }
    Ok(())
}

// The caller waits: it leaves its ready line and joins the tail of its wait's line. The answer says how many are ahead of it there: one
// less than its place, and nobody where there is no line, and so no place.
pub fn block(t: &mut [u8], w: Wait, parcel: u32) -> Answer
    requires { (waiting w ≡ true) × Serves t.old }
    ensures { Does t.old t.new result (λ s. block s w parcel) }
{
    let i = records::running(t);
    let place = change_wait(t, i, w, Outcome::NoneYet, parcel);
    ready::settle(t);
    let ahead = place.saturating_sub(1);
    Ok(Reply::Blocked {
        ahead: u32::from(ahead),
    })
}

// What a wait number leaves on the counter: 0 where the wait has no end.
pub fn wait_counter(n: u32) -> u32
    ensures { result ≡ wait_counter n }
{
    if n > MOST_TICKS { 0 } else { n }
}

// A call that must wait by wait number `n`: `w` is the wait, with the counter that the number leaves.
#[tactic(auto, unfolding(rules::specs::Waiting::must_wait))]
pub fn must_wait(t: &mut [u8], n: u32, w: Wait, parcel: u32) -> Answer
    requires { (waiting w ≡ true) × Serves t.old }
    ensures { (kind : ℕ → Wait) → w ≡ kind (wait_counter n) → Does t.old t.new result (λ s. must_wait s n kind parcel) }
{
    if n == 0 {
        return Err(Refusal::BadOperation);
    }
    may_wait(t)?;
    block(t, w, parcel)
}
