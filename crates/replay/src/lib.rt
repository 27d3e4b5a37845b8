// A trace, part by part: whole records are put to the door one after the other, and what is printed of them is put behind what a buffer has. What
// is left over of a part goes before the next one. `specs/Parts.antt` says where a trace stands between two parts.
#![tactic(auto)]

ghost use Rattle.std.specs.Prelude.{◌≡◌, ◌+◌, ◌*◌, ◌/◌, ◌≤◌, ◌<◌, ◌^◌, ◌++◌, length};
ghost use Rattle.rules.specs.Board.{printer};
ghost use Rattle.rules.specs.Requests.{request_length};
ghost use Rattle.rules.specs.Door.{door, fresh_table};
ghost use Rattle.rules.specs.Trace.{clean_area, trace_line, short_line};
ghost use Rattle.text.specs.Text.{line_text, trace_text};
ghost use Rattle.text.specs.Rooms.{line_room, short_room};
ghost use Rattle.parts.specs.LeftOver.{left_over};
ghost use Rattle.replay.specs.Replay.{Replayed};

use buffer::Buffer;
use reader::Read;

mod lent;

pub use lent::{Served, finish, serve};

// A fresh table.
pub fn fresh() -> [u8; rules::TABLE]
    ensures { result ≡ fresh_table printer }
{
    let mut t = [0u8; rules::TABLE];
    t[rules::field::USED] = 1;
    t[rules::field::PLACE] = 1;
    t[rules::field::OUTCOME] = 1;
    t[rules::field::TURN] = 10;
    t[rules::field::COUNTER] = 10;
    t[rules::KERNEL_FROM + rules::field::READY_WORD] = 1;
    t
}

// A record is served, and its line goes to `out`.
fn serve_record<const M: usize>(
    table: &mut [u8; rules::TABLE],
    request: &[u8],
    number: u64,
    out: &mut Buffer<M>,
)
    requires request_len { length request.now ≡ request_length }
    requires line_room_in_bounds { length out.old + line_room ≤ M }
    ensures table { table.new ≡ (door printer table.old request.now clean_area).table }
    ensures line { out.new ≡ out.old ++ line_text (trace_line printer number (door printer table.old request.now clean_area)) }
    ensures room { length out.new ≤ length out.old + line_room }
{
    let mut area = [0u8; rules::AREA];
    let table = &mut table[..];
    let code = kernel::speltmallet_door(table, request, &mut area);
    let value = words::word_at(&area, rules::VALUE_FROM);
    let running = records::running(table);
    // A cast: a thread's number fits in a byte.
    text::put_line(out, number, code, value, running as u8);
}

// The whole records of `input` are served, and their lines, numbered from `first` on, go to `out`. The records are those that the trace reader
// finds, which document 01 wants here.
fn replay<const M: usize>(
    table: &mut [u8; rules::TABLE],
    input: &[u8],
    first: u64,
    out: &mut Buffer<M>,
)
    requires input_bound { first + length input.now < 2 ^ 64 }
    requires line_room_in_bounds { length out.old + length input.now / request_length * line_room ≤ M }
    ensures { Replayed table.old input.now first out.old table.new out.new }
{
    let mut at: usize = 0;
    let mut number: u64 = first;
    while let Read::Record { at: record } = reader::read_from(input, at) {
        at = record + rules::REQUEST;
        serve_record(table, &input[record..at], number, out);
        number += 1;
    }
}

// The bytes of the block have come, and the next record has number `number`: the whole records among them are served, their lines go to `out`, and
// what is left over stays in the block. The number of the record after them is given back.
pub fn serve_part<const N: usize, const M: usize>(
    table: &mut [u8; rules::TABLE],
    number: u64,
    block: &mut Buffer<N>,
    out: &mut Buffer<M>,
) -> u64
    requires number_bound { number + length block.old < 2 ^ 64 }
    requires line_room_in_bounds { length out.old + length block.old / request_length * line_room ≤ M }
    ensures replayed { Replayed table.old block.old number out.old table.new out.new }
    ensures number { result ≡ number + length block.old / request_length }
    ensures block { block.new ≡ left_over block.old }
{
    replay(table, block.as_slice(), number, out);
    let n = block.len();
    let records = n / rules::REQUEST;
    block.drop_front(records * rules::REQUEST);
    // A cast: no `From` leads from a usize to it.
    number + records as u64
}

// The input has ended with so many bytes held: the line that says so, if there are any, goes to `out`.
pub fn put_end<const M: usize>(held: usize, out: &mut Buffer<M>)
    requires { length out.old + short_room ≤ M }
    ensures line { out.new ≡ out.old ++ trace_text (short_line held) }
    ensures room { length out.new ≤ length out.old + short_room }
{
    if held != 0 {
        text::put_short_line(out, held);
    }
}
