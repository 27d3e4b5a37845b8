// The same for a caller that lends bytes.
ghost use Rattle.std.specs.Prelude.{◌≡◌, ◌+◌, ◌*◌, ◌/◌, ◌%◌, ◌≤◌, ◌<◌, ◌^◌, length, take};
ghost use Rattle.std.proofs.lemmas.List.Edits.{sets};
ghost use Rattle.rules.specs.Board.{printer, table_length};
ghost use Rattle.rules.specs.Requests.{request_length};
ghost use Rattle.rules.specs.Door.{door};
ghost use Rattle.rules.specs.Trace.{clean_area, trace_line, short_line};
ghost use Rattle.text.specs.Text.{line_text, trace_text};
ghost use Rattle.text.specs.Puts.{Puts};
ghost use Rattle.text.specs.Rooms.{line_room, short_room};
ghost use Rattle.parts.specs.LeftOver.{left_over};
ghost use Rattle.replay.specs.Replay.{ReplayedAt};

use buffer::Buffer;
use reader::Read;
use rules::{REQUEST, TABLE};

// The room for the longest line.
const LINE: usize = 48;

// The bytes of a text go to `out` from place `at` on; the place after them is given back.
fn put(out: &mut [u8], at: usize, bytes: &[u8]) -> usize
    requires { at + length bytes.now ≤ length out.old }
    ensures { Puts out.old at bytes.now out.new result }
{
    let end = at + bytes.len();
    out[at..end].copy_from_slice(bytes);
    end
}

// A record is served, and its line goes to `out` from place `to` on; the place after it is given back.
fn serve_at(
    table: &mut [u8; TABLE],
    request: &[u8],
    number: u64,
    out: &mut [u8],
    to: usize,
) -> usize
    requires request_len { length request.now ≡ request_length }
    requires line_room_in_bounds { to + line_room ≤ length out.old }
    ensures table { table.new ≡ (door printer table.old request.now clean_area).table }
    ensures line { Puts out.old to (line_text (trace_line printer number (door printer table.old request.now clean_area))) out.new result }
    ensures room { result ≤ to + line_room }
{
    let mut line = Buffer::<LINE>::new();
    crate::serve_record(table, request, number, &mut line);
    put(out, to, line.as_slice())
}

// The whole records of `input` are served, and their lines, numbered from `first` on, go to the start of `out`; the place after them is given
// back. The records are those that the trace reader finds.
fn replay_at(table: &mut [u8; TABLE], input: &[u8], first: u64, out: &mut [u8]) -> usize
    requires input_bound { first + length input.now < 2 ^ 64 }
    requires line_room_in_bounds { length input.now / request_length * line_room ≤ length out.old }
    ensures { ReplayedAt table.old input.now first out.old table.new out.new result }
{
    let mut at: usize = 0;
    let mut number: u64 = first;
    let mut next: usize = 0;
    while let Read::Record { at: record } = reader::read_from(input, at) {
        at = record + REQUEST;
        next = serve_at(table, &input[record..at], number, out, next);
        number += 1;
    }
    next
}

// Where a trace stands after a part: the number of the next record, how many bytes are held at the front of the block, and the place after
// the part's lines.
#[derive(Clone, Copy)]
pub struct Served {
    pub number: u64,
    pub held: usize,
    pub next: usize,
}

// The first `n` bytes of the block have come, and the next record has number `number`: the whole records among them are served, their lines go
// to the start of `out`, and what is left over moves to the front of the block.
pub fn serve(table: &mut [u8], number: u64, block: &mut [u8], n: usize, out: &mut [u8]) -> Served
    requires table_len { length table.old ≡ table_length printer }
    requires n_in_bounds { n ≤ length block.old }
    requires n_bound { number + n < 2 ^ 64 }
    requires line_room_in_bounds { n / request_length * line_room ≤ length out.old }
    ensures replayed { ReplayedAt table.old (take n block.old) number out.old table.new out.new result.next }
    ensures number { result.number ≡ number + n / request_length }
    ensures held { result.held ≡ n % request_length }
    ensures block { block.new ≡ sets block.old 0 (left_over (take n block.old)) }
{
    let mut own_table = [0u8; TABLE];
    own_table.copy_from_slice(table);
    let next = replay_at(&mut own_table, &block[..n], number, out);
    table.copy_from_slice(&own_table);
    let records = n / REQUEST;
    let from = records * REQUEST;
    block.copy_within(from..n, 0);
    // A cast: no `From` leads from a usize to it.
    Served {
        number: number + records as u64,
        held: n - from,
        next,
    }
}

// The input has ended with so many bytes held: the line that says so, if there are any, goes to the start of `out`; the place after it is
// given back.
pub fn finish(held: usize, out: &mut [u8]) -> usize
    requires { short_room ≤ length out.old }
    ensures line { Puts out.old 0 (trace_text (short_line held)) out.new result }
    ensures room { result ≤ short_room }
{
    let mut line = Buffer::<LINE>::new();
    crate::put_end(held, &mut line);
    put(out, 0, line.as_slice())
}
