// The report program: it reads request records from standard input, puts them to the kernel's door from a fresh table on, and at the end
// prints a line for each thread in use: its number, the ticks charged to it and its lag. What is printed is decided by the crates `accounts` and
// `lags`; here bytes come and go.
#![tactic(auto)]

ghost use Rattle.std.specs.Prelude.{◌≡◌, ◌-◌, ◌≤◌, leb};
ghost use Rattle.rules.specs.Board.{printer};
ghost use Rattle.rules.specs.Requests.{request_length};
ghost use Rattle.rules.specs.Sound.{Sound};
ghost use Rattle.rules.specs.Table.{decode};
ghost use Rattle.lanes.specs.Report.{most_records, report_text};
ghost use Rattle.lanes.specs.Kept.{of, Within};
ghost use Rattle.report.specs.Going.{Stands, Ended};

use buffer::Buffer;
use rules::{TABLE, THREADS};
use streams::Program;

// A block holds 1,024 records, so that a file's reads leave nothing over.
const BLOCK: usize = 1024 * rules::REQUEST;

// The room for the report: `stopped`, and a line of each thread.
const OUT: usize = 8 + THREADS * 35;

// What the run comes to: how many bytes have come, how many records are served, and whether the input has ended or the last record is served.
#[derive(Clone, Copy)]
struct Reported {
    bytes: u64,
    number: usize,
    ended: bool,
}

// The whole input is replayed, part by part, where `first` records went before. A failure is said on standard error and ends it. The loop is this
// program's own, as that of `trace` is.
fn serve_all(
    program: Program<'_>,
    table: &mut [u8; TABLE],
    accounts: &mut [u64; THREADS],
    first: usize,
    block: &mut Buffer<BLOCK>,
) -> Reported
    requires within { Within (most_records - first) accounts.old }
    requires first_le_most_records { first ≤ most_records }
    ensures { Stands first table.old accounts.old result.bytes result.number table.new accounts.new block.new }
{
    block.clear();
    let mut bytes: u64 = 0;
    let mut number = first;
    let mut ended = false;
    for _ in 0..streams::READS {
        let Ok(n) = program.read_behind(block) else {
            break;
        };
        if n == 0 {
            ended = true;
            break;
        }
        // A cast: no `From` leads from a usize to it.
        bytes += n as u64;
        number = accounts::serve_part(table, accounts, number, block);
        if rules::REQUEST <= block.len() {
            ended = true;
            break;
        }
    }
    Reported {
        bytes,
        number,
        ended,
    }
}

// No more is read: the report stands ready, and is written unless a read failed.
fn close(
    program: Program<'_>,
    table: &[u8; TABLE],
    accounts: &[u64; THREADS],
    held: usize,
    ended: bool,
    out: &mut Buffer<OUT>,
)
    requires sound { Sound (decode printer table.now) }
    requires within { Within 0 accounts.now }
    ensures { out.new ≡ report_text (leb request_length held) (of accounts.now) (decode printer table.now) }
{
    let stopped = rules::REQUEST <= held;
    out.clear();
    lags::put_lanes(table, accounts, stopped, out);
    if ended {
        let _ = program.write(out.as_slice());
    }
}

// The whole input is replayed where `first` records went before, and reported.
fn run(
    program: Program<'_>,
    table: &mut [u8; TABLE],
    accounts: &mut [u64; THREADS],
    first: usize,
    block: &mut Buffer<BLOCK>,
    out: &mut Buffer<OUT>,
) -> Reported
    requires sound { Sound (decode printer table.old) }
    requires within { Within (most_records - first) accounts.old }
    requires first_le_most_records { first ≤ most_records }
    ensures { Ended first table.old accounts.old result.bytes result.number table.new accounts.new block.new out.new }
{
    let reported = serve_all(program, table, accounts, first, block);
    close(program, table, accounts, block.len(), reported.ended, out);
    reported
}

fn main(rt: HostRuntime) {
    let mut table = replay::fresh();
    let mut accounts = [0u64; THREADS];
    let mut block = Buffer::new();
    let mut out = Buffer::new();
    run(
        Program::of(streams::of(&rt), b"report"),
        &mut table,
        &mut accounts,
        0,
        &mut block,
        &mut out,
    );
}
