// Semaphores: Make, Drop, Pend, Abort, Post, Post from interrupt. Each operation tests its refusals in document 01's order, before the
// first write.
//
// The promises are those of crate `waiting`: `Becomes` for a change, `Does` for an operation.
#![tactic(auto)]

ghost use Rattle.std.specs.Prelude.{if◌then◌else◌, ◌||◌, ◌≡◌, ◌+◌, eqb, ltb, Ok, Err, OnOk};
ghost use Rattle.rules.specs.Board.{most_count};
ghost use Rattle.rules.specs.State.{State, sem_at};
ghost use Rattle.rules.specs.Semaphores.{no_sem, with_count, do_make, do_drop, do_pend, do_abort, do_post, do_post_from_interrupt};
ghost use Rattle.rules.specs.declared.Refusal.TheVariants.{BadSemaphore};
ghost use Rattle.layout.specs.Boards.{HasSem};
ghost use Rattle.layout.specs.Held.{Long, said, Whole, Becomes};
ghost use Rattle.waiting.specs.Does.{Serves, Does};

use marks::Line;
use rules::{Answer, Outcome, Refusal, Sem, Wait};

// "Semaphore count 0 to 99": the most of it, as a request's number.
// A cast, since no constant calls `From`.
const MOST_COUNT: u32 = rules::MOST_COUNT as u32;

// SEMAPHORES BY NUMBER

// Semaphore `k`, if it is in use. "Semaphore number above 7, or free" is refused by −6.
fn in_use(t: &[u8], k: u8) -> Result<Sem, Refusal>
    requires { Long t.now }
    ensures semaphore { (s : State) → said t.now ≡ s → result ≡ (if no_sem s k then Err BadSemaphore else Ok (sem_at s.sems k)) }
    ensures on_board { OnOk result (HasSem t.now k) }
{
    let j = usize::from(k);
    if j >= boards::semaphores(t) {
        return Err(Refusal::BadSemaphore);
    }
    let e = records::load_sem(t, j);
    if e.used {
        Ok(e)
    } else {
        Err(Refusal::BadSemaphore)
    }
}

// Semaphore `k` is in use with that count.
fn set_count(t: &mut [u8], k: usize, count: u8)
    requires { HasSem t.old k × Whole t.old }
    ensures { Becomes t.old t.new (with_count k count) }
{
    records::set_sem(t, k, Sem { used: true, count });
}

// MAKE AND DROP

// Refused in the order −6, −5.
pub fn make(t: &mut [u8], k: u8, n: u32) -> Answer
    requires { Serves t.old }
    ensures { Does t.old t.new result (λ s. do_make s k n) }
{
    let j = usize::from(k);
    if j >= boards::semaphores(t) || records::load_sem(t, j).used {
        return Err(Refusal::BadSemaphore);
    }
    if n > MOST_COUNT {
        return Err(Refusal::BadOperation);
    }
    // A cast: the test before it bounds the number, and `try_from` would have no refusal to give.
    set_count(t, j, n as u8);
    waiting::accept(t, 0)
}

// Its waiters end with −5 in line order, and its record is free. Refused by −6.
#[tactic(auto, unfolding(rules::specs::Semaphores::do_drop))]
pub fn drop_semaphore(t: &mut [u8], k: u8) -> Answer
    requires { Serves t.old }
    ensures { Does t.old t.new result (λ s. do_drop s k) }
{
    in_use(t, k)?;
    let line = Line::Waiters { semaphore: k };
    let n = lines::length(t, line);
    waiting::serve(t, n, line, Outcome::Failed);
    records::set_sem(
        t,
        usize::from(k),
        Sem {
            used: false,
            count: 0,
        },
    );
    waiting::accept(t, 0)
}

// PEND AND ABORT

// One is taken and the value is what is left, or the caller must wait by number `n`. Refused in the order −6, −5.
#[tactic(auto, unfolding(rules::specs::Semaphores::do_pend))]
pub fn pend(t: &mut [u8], k: u8, n: u32) -> Answer
    requires { Serves t.old }
    ensures { Does t.old t.new result (λ s. do_pend s k n) }
{
    let e = in_use(t, k)?;
    if e.count > 0 {
        let left = e.count - 1;
        set_count(t, usize::from(k), left);
        return waiting::accept(t, u32::from(left));
    }
    let counter = waiting::wait_counter(n);
    waiting::must_wait(t, n, Wait::Semaphore { on: k, counter }, 0)
}

// A wait on a semaphore is broken off.
#[tactic(auto, unfolding(rules::specs::Semaphores::do_abort, rules::specs::Threads::break_off))]
pub fn abort(t: &mut [u8], i: u8) -> Answer
    requires { Serves t.old }
    ensures { Does t.old t.new result (λ s. do_abort s i) }
{
    let w = records::thread_at(t, i).wait;
    waiting::break_off(t, i, records::is_pending(w))
}

// POST

// Order 4: "number 0 or when the count plus the units left over after the waiters are served is above 99". More than 99 left over is too
// many by itself, so that the sum does not wrap.
fn too_many(count: u8, n: u32, over: u32) -> bool
    ensures { result ≡ (eqb n 0 || ltb most_count (count + over)) }
{
    n == 0 || over > MOST_COUNT || u32::from(count) + over > MOST_COUNT
}

// The units go to the waiters in line order, and the rest is added to the count. Refused in the order −6, −5.
#[tactic(auto, unfolding(rules::specs::Semaphores::do_post))]
pub fn post(t: &mut [u8], k: u8, n: u32) -> Answer
    requires { Serves t.old }
    ensures { Does t.old t.new result (λ s. do_post s k n) }
{
    let e = in_use(t, k)?;
    let line = Line::Waiters { semaphore: k };
    let served = n.min(u32::from(lines::length(t, line)));
    let over = n - served;
    if too_many(e.count, n, over) {
        return Err(Refusal::BadOperation);
    }
    // Casts: no more are served than a byte counts, and the test before bounds what is left over.
    waiting::serve(t, served as u8, line, Outcome::Done);
    set_count(t, usize::from(k), e.count + over as u8);
    waiting::accept(t, 0)
}

// A Post that is refused by −5 under lock too.
#[tactic(auto, unfolding(rules::specs::Semaphores::do_post_from_interrupt))]
pub fn post_from_interrupt(t: &mut [u8], k: u8, n: u32) -> Answer
    requires { Serves t.old }
    ensures { Does t.old t.new result (λ s. do_post_from_interrupt s k n) }
{
    in_use(t, k)?;
    if records::lock(t) > 0 {
        return Err(Refusal::BadOperation);
    }
    post(t, k, n)
}
