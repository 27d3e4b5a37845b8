// Is a thread's record sound that is in use? The places of the lines apart, which no record alone says.
ghost use Rattle.std.specs.Prelude.{if◌then◌else◌, ◌≡◌, not, ◌&&◌, eqb, leb};
ghost use Rattle.rules.specs.Board.{most_ticks};
ghost use Rattle.rules.specs.State.{State, at, sem_at};
ghost use Rattle.rules.specs.Test.{counter_ok, object_ok, used_ok};
ghost use Rattle.layout.specs.Held.{Long, said};
ghost use Rattle.sound.specs.Tested.{outcome_ok};

use rules::{MOST_TICKS, Outcome, TOP_PRIORITY, Thread, Wait};

// BY ITSELF

fn ticks_ok(n: u32) -> bool
    ensures { result ≡ (leb 1 n && leb n most_ticks) }
{
    (1..=MOST_TICKS).contains(&n)
}

// What is left of a turn: at place 1 of a ready line, 1 to the turn; at a later place, the turn itself.
fn turn_ok(counter: u32, place: u8, turn: u32) -> bool
    ensures { result ≡ (if eqb place 1 then leb 1 counter && leb counter turn else eqb counter turn) }
{
    if place == 1 {
        (1..=turn).contains(&counter)
    } else {
        counter == turn
    }
}

fn counter_ok(w: Wait, suspended: bool, place: u8, turn: u32) -> bool
    ensures { result ≡ counter_ok w suspended place turn }
{
    match w {
        Wait::Nothing { counter } => {
            if suspended {
                counter == 0
            } else {
                turn_ok(counter, place, turn)
            }
        }
        Wait::Delay { counter } => ticks_ok(counter),
        Wait::Receive { counter } | Wait::Send { counter, .. } | Wait::Semaphore { counter, .. } =>
            counter <= MOST_TICKS,
    }
}

#[tactic(auto, using(crate::proofs::Order::idle_sends, crate::proofs::Order::none_done), unfolding(crate::specs::Tested::outcome_ok))]
fn outcome_ok(w: Wait, o: Outcome, parcel: u32) -> bool
    ensures { result ≡ outcome_ok w o parcel }
{
    if records::is_waiting(w) {
        o == Outcome::NoneYet && (records::is_sending(w) || parcel == 0)
    } else {
        o == Outcome::Done || parcel == 0
    }
}

// WITH WHAT IT WAITS FOR

// Can thread `i` wait to send to that thread?
fn send_ok(t: &[u8], i: usize, to: usize) -> bool
    requires { Long t.now }
    ensures { (s : State) → said t.now ≡ s → result ≡ (not (eqb i to) && (at s.threads to).used && (at s.threads to).full) }
{
    if i == to || to >= boards::threads(t) {
        return false;
    }
    let th = records::load_thread(t, to);
    th.used && th.full
}

// Can a thread wait on that semaphore?
fn pend_ok(t: &[u8], on: usize) -> bool
    requires { Long t.now }
    ensures { (s : State) → said t.now ≡ s → result ≡ ((sem_at s.sems on).used && eqb (sem_at s.sems on).count 0) }
{
    if on >= boards::semaphores(t) {
        return false;
    }
    let e = records::load_sem(t, on);
    e.used && e.count == 0
}

fn object_ok(t: &[u8], i: usize, w: Wait, full: bool) -> bool
    requires { Long t.now }
    ensures { (s : State) → said t.now ≡ s → result ≡ object_ok s i w full }
{
    match w {
        Wait::Nothing { .. } | Wait::Delay { .. } => true,
        Wait::Receive { .. } => !full,
        Wait::Send { to, .. } => send_ok(t, i, usize::from(to)),
        Wait::Semaphore { on, .. } => pend_ok(t, usize::from(on)),
    }
}

// The whole record. Each test that fails returns at once: one expression of them takes 8 bytes of stack more, and 14 instructions for each thread.
#[tactic(auto, unfolding(rules::specs::Test::used_ok, crate::specs::Tested::outcome_ok))]
pub fn used_ok(t: &[u8], i: usize, th: Thread) -> bool
    requires { Long t.now }
    ensures { (s : State) → said t.now ≡ s → result ≡ used_ok s i th }
{
    if th.priority > TOP_PRIORITY || !ticks_ok(th.turn) {
        return false;
    }
    if !(th.full || th.value == 0) {
        return false;
    }
    if !counter_ok(th.wait, th.suspended, th.place, th.turn) {
        return false;
    }
    if !object_ok(t, i, th.wait, th.full) {
        return false;
    }
    outcome_ok(th.wait, th.outcome, th.parcel)
}
