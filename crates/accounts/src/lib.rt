// What each thread is charged while the records of a trace are served: a tick is entered to the thread that was running, ticks that are done at
// once are entered by the leaps that they are, and a creation begins the thread's account anew. `specs/Accounts.antt` says what some records make of
// the accounts.
#![tactic(auto)]

ghost use Rattle.std.specs.Prelude.{◌≡◌, ◌+◌, ◌-◌, ◌*◌, ◌≤◌, length, drop};
ghost use Rattle.rules.specs.Board.{printer};
ghost use Rattle.rules.specs.Requests.{request_length, decode_request};
ghost use Rattle.rules.specs.Door.{door, table_after};
ghost use Rattle.rules.specs.Trace.{clean_area};
ghost use Rattle.fairness.specs.Run.{deed_of, deed, at_once, is_zero};
ghost use Rattle.lanes.specs.Report.{most_records};
ghost use Rattle.lanes.specs.Kept.{Within};
ghost use Rattle.accounts.specs.Accounts.{accounts_from, entered, events_here, handed, events_of, servable, Finds};

use buffer::Buffer;
use rules::{REQUEST, Request, TABLE, THREADS};

mod charges;
mod lent;

pub use lent::{Stood, serve};

// So many records are served, and no more.
pub const MOST_RECORDS: usize = 1000000;

// An accepted request is entered, where thread `ran` was running and the lock count was `lock`.
fn enter(accounts: &mut [u64; THREADS], request: Request, ran: usize, lock: u8)
    requires finds { Finds printer.threads (deed_of request) ran }
    requires within { Within 1 accounts.old }
    ensures { accounts.new ≡ entered accounts.old (deed_of request) ran lock }
{
    match request {
        Request::Tick => {
            if lock == 0 {
                accounts[ran] += 1;
            }
        }
        Request::Create { thread, .. } => {
            accounts[usize::from(thread)] = 0;
        }
        _ => {}
    }
}

// How many ticks are asked for at once; 0 where none are.
fn at_once(asked: Option<Request>) -> u32
    ensures { result ≡ at_once (deed asked) }
{
    let Some(Request::Ticks { number }) = asked else {
        return 0;
    };
    number
}

// The record is served. Whether it is accepted is given back.
fn serve_one(table: &mut [u8; TABLE], record: &[u8]) -> bool
    ensures accepted { result ≡ is_zero (door printer table.old «record».now clean_area).code }
    ensures table { table.new ≡ (door printer table.old «record».now clean_area).table }
{
    let mut area = [0u8; rules::AREA];
    let code = kernel::speltmallet_door(table, record, &mut area);
    code == 0
}

// One that asks for no ticks at once is entered if it is accepted.
#[tactic(auto, using(crate::proofs::Served::refused_record, crate::proofs::Served::unread_record, crate::proofs::Served::awake_record, crate::proofs::Accepted::finds, layout::proofs::Boards::said_printer))]
fn serve_request(
    table: &mut [u8; TABLE],
    accounts: &mut [u64; THREADS],
    record: &[u8],
    asked: Option<Request>,
)
    requires within { Within 1 accounts.old }
    requires asked { asked ≡ decode_request «record».now }
    requires awake { at_once (deed asked) ≡ 0 }
    ensures table { table.new ≡ (door printer table.old «record».now clean_area).table }
    ensures accounts { accounts.new ≡ accounts_from 0 accounts.old (events_here table.old «record».now) }
{
    let ran = records::running(table);
    let lock = records::lock(table);
    if !serve_one(table, record) {
        return;
    }
    let Some(request) = asked else {
        return;
    };
    enter(accounts, request, ran, lock);
}

// One that asks for `n` ticks at once, if it is accepted: they are done on a copy of the table that it found too, and entered.
#[tactic(auto, using(crate::proofs::Served::refused_record, crate::proofs::Served::can_serve, crate::proofs::Served::ticks_fit, crate::proofs::Served::asleep_record))]
fn serve_ticks(table: &mut [u8; TABLE], accounts: &mut [u64; THREADS], record: &[u8], n: u32)
    requires within { Within 1 accounts.old }
    requires ticks { at_once (deed (decode_request «record».now)) ≡ n }
    requires some { 1 ≤ n }
    ensures table { table.new ≡ (door printer table.old «record».now clean_area).table }
    ensures accounts { accounts.new ≡ accounts_from 0 accounts.old (events_here table.old «record».now) }
{
    let mut before = *table;
    if serve_one(table, record) {
        charges::enter_ticks(accounts, &mut before, n);
    }
}

// The record is served, and entered if it is accepted.
fn serve_record(table: &mut [u8; TABLE], accounts: &mut [u64; THREADS], record: &[u8])
    requires { Within 1 accounts.old }
    ensures table { table.new ≡ (door printer table.old «record».now clean_area).table }
    ensures accounts { accounts.new ≡ accounts_from 0 accounts.old (events_here table.old «record».now) }
{
    let asked = request::decode(record);
    let n = at_once(asked);
    if n == 0 {
        serve_request(table, accounts, record, asked);
    } else {
        serve_ticks(table, accounts, record, n);
    }
}

// The first `k` records are served and entered.
fn serve_records(table: &mut [u8; TABLE], accounts: &mut [u64; THREADS], input: &[u8], k: usize)
    requires within { Within k accounts.old }
    requires whole { k * request_length ≤ length input.now }
    ensures table { table.new ≡ table_after printer table.old (handed k input.now) }
    ensures accounts { accounts.new ≡ accounts_from 0 accounts.old (events_of table.old k input.now) }
{
    for record in input.chunks_exact(REQUEST).take(k) {
        serve_record(table, accounts, record);
    }
}

// How many of the records of `n` bytes are served after `number` others.
fn servable(number: usize, n: usize) -> usize
    requires { number ≤ most_records }
    ensures { result ≡ servable number n }
{
    (n / REQUEST).min(MOST_RECORDS - number)
}

// `number` records are served, and the bytes of the block have come: the whole records among them are served and entered, but no more than
// 1,000,000 in all, and what is left over stays in the block. How many are served by then is given back.
pub fn serve_part<const N: usize>(
    table: &mut [u8; TABLE],
    accounts: &mut [u64; THREADS],
    number: usize,
    block: &mut Buffer<N>,
) -> usize
    requires within { Within (most_records - number) accounts.old }
    requires number_le_most_records { number ≤ most_records }
    ensures number { result ≡ number + servable number (length block.old) }
    ensures table { table.new ≡ table_after printer table.old (handed (servable number (length block.old)) block.old) }
    ensures accounts { accounts.new ≡ accounts_from 0 accounts.old (events_of table.old (servable number (length block.old)) block.old) }
    ensures block { block.new ≡ drop (servable number (length block.old) * request_length) block.old }
{
    let k = servable(number, block.len());
    serve_records(table, accounts, block.as_slice(), k);
    block.drop_front(k * REQUEST);
    number + k
}
