// The lane report of a table and of its threads' accounts, put behind what a buffer has. `lanes/specs` says what a lag is and what is printed.
#![tactic(auto)]

ghost use Rattle.std.specs.Prelude.{if◌then◌else◌, [], ◌≡◌, ◌++◌, ◌+◌, ◌*◌, ◌≤◌, ◌<◌, length};
ghost use Rattle.std.proofs.Math.IntN.{sub_ℕ};
ghost use Rattle.rules.specs.Board.{printer, most_ticks};
ghost use Rattle.rules.specs.State.{at};
ghost use Rattle.rules.specs.Sound.{Sound};
ghost use Rattle.rules.specs.Lines.{ready, in_line};
ghost use Rattle.rules.specs.Table.{decode};
ghost use Rattle.text.specs.Text.{ascii, signed};
ghost use Rattle.fairness.specs.Run.{sum_turns};
ghost use Rattle.lanes.specs.Lag.{sum_over, lag};
ghost use Rattle.lanes.specs.Report.{most_charges, lane_of, report_text};
ghost use Rattle.lanes.specs.Kept.{of, Within};
ghost use Rattle.lags.specs.Room.{lane_room, report_room};

use buffer::Buffer;
use rules::{TABLE, THREADS, Thread};

mod lent;

pub use lent::put_report;

// "charged ticks times the sum of the turns of its rank's ready threads at the end, less its own turn times all ticks charged to those threads"
fn lag(charged: u64, turns: u64, turn: u64, all: u64) -> i64
    requires charged_le_most_charges { (charged ≤ most_charges) × (turns ≤ printer.threads * most_ticks) }
    requires turn_le_most_ticks { (turn ≤ most_ticks) × (all ≤ printer.threads * most_charges) }
    ensures value { result ≡ sub_ℕ (charged * turns) (turn * all) }
    ensures room { length (signed result) ≤ 19 }
{
    (charged * turns) as i64 - (turn * all) as i64
}

// A number, if the thread is ready at that priority; else 0.
fn counted(th: Thread, priority: u8, n: u64) -> u64
    ensures { result ≡ (if in_line (ready priority) th then n else 0) }
{
    if lines::in_rank(th, priority) { n } else { 0 }
}

// What the ready threads of a rank have in all: their turns, and the ticks charged to them.
#[derive(Clone, Copy)]
struct Rank {
    turns: u64,
    charged: u64,
}

// Table and accounts stay two parameters: a struct of them was tried, and its ghost field can't hold `Sound`, which may have two proofs.
#[tactic(auto, using(layout::proofs::Boards::said_printer, leaps::proofs::Turns::turn_most), unfolding(lanes::specs::Lag::sum_over))]
fn rank_of(table: &[u8; TABLE], accounts: &[u64; THREADS], priority: u8) -> Rank
    requires sound { Sound (decode printer table.now) }
    requires within { Within 0 accounts.now }
    ensures turns { (result.turns ≤ printer.threads * most_ticks) × (result.turns ≡ sum_turns priority (decode printer table.now).threads) }
    ensures charged { (result.charged ≤ printer.threads * most_charges) × (result.charged ≡ sum_over priority (of accounts.now) 0 (decode printer table.now).threads) }
{
    let mut turns: u64 = 0;
    let mut charged: u64 = 0;
    for (j, &own) in accounts.iter().enumerate() {
        let th = records::load_thread(table, j);
        turns += counted(th, priority, u64::from(th.turn));
        charged += counted(th, priority, own);
    }
    Rank { turns, charged }
}

// "A thread not ready at the end has lag 0."
#[tactic(auto, using(crate::proofs::Turned::lag_unready, layout::proofs::Boards::said_printer))]
fn lag_of(table: &[u8; TABLE], accounts: &[u64; THREADS], i: usize) -> i64
    requires i_lt_threads { i < printer.threads }
    requires sound { Sound (decode printer table.now) }
    requires within { Within 0 accounts.now }
    ensures value { result ≡ lag (of accounts.now) (decode printer table.now) i }
    ensures room { length (signed result) ≤ 19 }
{
    let th = records::load_thread(table, i);
    if !lines::is_ready(th) {
        return 0;
    }
    let rank = rank_of(table, accounts, th.priority);
    lag(accounts[i], rank.turns, u64::from(th.turn), rank.charged)
}

// The line of thread `i`, if it is in use.
fn put_lane<const N: usize>(
    table: &[u8; TABLE],
    accounts: &[u64; THREADS],
    i: usize,
    out: &mut Buffer<N>,
)
    requires i_lt_threads { i < printer.threads }
    requires sound { Sound (decode printer table.now) }
    requires within { Within 0 accounts.now }
    requires lane_room_in_bounds { length out.old + lane_room ≤ N }
    ensures line { out.new ≡ out.old ++ lane_of (of accounts.now) (decode printer table.now) i (at (decode printer table.now).threads i) }
    ensures room { length out.new ≤ length out.old + lane_room }
{
    let th = records::load_thread(table, i);
    if !th.used {
        return;
    }
    let own = lag_of(table, accounts, i);
    // A cast: no `From` leads from a usize to it.
    text::put_field(out, i as u64, b' ');
    text::put_field(out, accounts[i], b' ');
    text::put_signed(out, own);
    out.push(b'\n');
}

// The line that comes first where whole records are left.
fn put_stopped<const N: usize>(stopped: bool, out: &mut Buffer<N>)
    requires { length out.old + report_room ≤ N }
    ensures puts { out.new ≡ out.old ++ (if stopped then ascii "stopped\n" else []) }
    ensures upper_bound { length out.new ≤ length out.old + 8 }
{
    if stopped {
        out.extend(b"stopped\n");
    }
}

// The whole report goes to `out`.
#[tactic(auto, unfolding(lanes::specs::Report::lane_lines))]
pub fn put_lanes<const N: usize>(
    table: &[u8; TABLE],
    accounts: &[u64; THREADS],
    stopped: bool,
    out: &mut Buffer<N>,
)
    requires sound { Sound (decode printer table.now) }
    requires within { Within 0 accounts.now }
    requires report_room_in_bounds { length out.old + report_room ≤ N }
    ensures text { out.new ≡ out.old ++ report_text stopped (of accounts.now) (decode printer table.now) }
    ensures room { length out.new ≤ length out.old + report_room }
{
    put_stopped(stopped, out);
    for i in 0..THREADS {
        put_lane(table, accounts, i, out);
    }
}
