// What ticks that are done at once charge, leap by leap and without the single ticks. `leaps/specs/Charges.antt` says what a thread's share of a
// leap is.
ghost use Rattle.std.specs.Prelude.{◌≡◌, ◌+◌, ◌≤◌, ◌<◌, set};
ghost use Rattle.rules.specs.Board.{printer};
ghost use Rattle.rules.specs.State.{State, at};
ghost use Rattle.rules.specs.Table.{decode};
ghost use Rattle.layout.specs.Held.{Holds, Becomes};
ghost use Rattle.waiting.specs.Does.{Serves};
ghost use Rattle.leaps.specs.Ticks.{leap};
ghost use Rattle.leaps.specs.Charges.{tick_events, turns_at, share};
ghost use Rattle.lanes.specs.Report.{most_charges};
ghost use Rattle.lanes.specs.Kept.{of};
ghost use Rattle.accounts.specs.Accounts.{accounts_from, more, credited, Fits};

use rules::{TABLE, THREADS};

// Thread `i` has `rounds` of its turns more, if it is ready at that priority.
#[tactic(auto, using(crate::proofs::Credits::turns_in, crate::proofs::Credits::none_added, layout::proofs::Boards::said_printer))]
fn credit_member(
    accounts: &mut [u64; THREADS],
    t: &[u8; TABLE],
    i: usize,
    priority: u8,
    rounds: u32,
)
    requires i_lt_threads { i < printer.threads }
    requires fits { of accounts.old i + turns_at priority rounds (at (decode printer t.now).threads i) ≤ most_charges }
    ensures { accounts.new ≡ set accounts.old i (of accounts.old i + turns_at priority rounds (at (decode printer t.now).threads i)) }
{
    let th = records::load_thread(t, i);
    if lines::in_rank(th, priority) {
        accounts[i] += u64::from(rounds) * u64::from(th.turn);
    }
}

// So has each thread that is ready at that priority.
#[tactic(auto, using(crate::proofs::Credits::up_to_all))]
fn credit_rank(accounts: &mut [u64; THREADS], t: &[u8; TABLE], priority: u8, rounds: u32)
    requires { Fits (λ i. turns_at priority rounds (at (decode printer t.now).threads i)) accounts.old }
    ensures { accounts.new ≡ more (λ i. turns_at priority rounds (at (decode printer t.now).threads i)) 0 accounts.old }
{
    for i in 0..THREADS {
        credit_member(accounts, t, i, priority, rounds);
    }
}

// A leap of `far` ticks or of `rounds` whole rounds is entered, before which thread `ran` was running and the lock count was `lock`.
#[tactic(auto, using(crate::proofs::Credits::none_credited, crate::proofs::Credits::one_credited))]
fn credit(
    accounts: &mut [u64; THREADS],
    t: &[u8; TABLE],
    ran: usize,
    lock: u8,
    far: u32,
    rounds: u32,
)
    requires ran_lt_threads { ran < printer.threads }
    requires fits { Fits (share (decode printer t.now).threads ran lock far rounds) accounts.old }
    ensures { accounts.new ≡ more (share (decode printer t.now).threads ran lock far rounds) 0 accounts.old }
{
    if lock != 0 {
        return;
    }
    if rounds == 0 {
        accounts[ran] += u64::from(far);
        return;
    }
    let th = records::load_thread(t, ran);
    credit_rank(accounts, t, th.priority, rounds);
}

// Some of `n` ticks are done at once and entered. How many is given back.
fn enter_leap(accounts: &mut [u64; THREADS], t: &mut [u8; TABLE], n: u32) -> u32
    requires serves { Serves t.old }
    requires some { 1 ≤ n }
    requires fits { Fits (λ i. n) accounts.old }
    ensures far { (s : State) → Holds t.old s → result ≡ (leap n s).far }
    ensures table { Becomes t.old t.new (λ s. (leap n s).state) }
    ensures accounts { (s : State) → Holds t.old s → accounts.new ≡ credited s (leap n s) accounts.old }
{
    let ran = records::running(t);
    let lock = records::lock(t);
    let leapt = sleep::leap(t, n);
    credit(accounts, t, ran, lock, leapt.far, leapt.rounds);
    leapt.far
}

// `n` ticks are done and entered.
pub fn enter_ticks(accounts: &mut [u64; THREADS], t: &mut [u8; TABLE], n: u32)
    requires serves { Serves t.old }
    requires fits { Fits (λ i. n) accounts.old }
    ensures { accounts.new ≡ accounts_from 0 accounts.old (tick_events n (decode printer t.old)) }
{
    let mut left = n;
    // No `for`: how far a leap goes is known only when it is done.
    while 0 < left {
        left -= enter_leap(accounts, t, left);
    }
}
