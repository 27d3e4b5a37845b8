// A listing exchanged for its records, or records for their listing, from standard input to standard output. What comes out is decided by the
// crate `writer`; here bytes come and go. What comes out of a part is written before the next part is read, so that a slow pipe is answered
// as it speaks.
#![tactic(auto)]

ghost use Rattle.std.specs.Prelude.{if◌then◌else◌, ◌≤◌, ◌<◌, ◌^◌, ◌≡◌, ◌||◌, ltb, length, Some, None};
ghost use Rattle.std.specs.Result.{is_err};
ghost use Rattle.listing.specs.Listing.{refusal_text};
ghost use Rattle.writer.specs.Places.{reached};
ghost use Rattle.exchange.specs.Going.{Ended};

use buffer::Buffer;
use listing::Way;
use streams::Program;

mod lent;

pub use lent::{Done, run};

// A block holds 1,024 records, so that a file's reads leave nothing over.
pub const BLOCK: usize = 1024 * rules::REQUEST;

// The room for what comes out of a block: a record of 12 bytes for each two, and a longest line.
pub const OUT: usize = 6 * BLOCK + 48;

// What the run comes to: how many bytes have come, and the number of the line or record behind those that are done.
#[derive(Clone, Copy)]
pub struct Reached {
    pub bytes: u64,
    pub number: u64,
}

// The number of what is bad where no more is read: of what has stopped the text, or else of what is held.
fn left_bad(turned: Result<u64, u64>, block: &Buffer<BLOCK>) -> Option<u64>
    ensures { result ≡ (if is_err turned || ltb 0 (length block.now) then Some (reached turned) else None) }
{
    match turned {
        Ok(number) => (0 < block.len()).then_some(number),
        Err(number) => Some(number),
    }
}

// No more is read: the refusal stands ready, if there is one.
fn close(way: Way, bad: Option<u64>, out: &mut Buffer<OUT>)
    ensures { out.new ≡ refusal_text way bad }
{
    out.clear();
    writer::put_refusal(way, bad, out);
}

// The whole input is turned, part by part, where its first line or record has number `first`. A failure is said on standard error and ends it;
// where there is none, the refusal is said. What is held at the end stays in the block, and the refusal in `out`. The loop is of these two programs
// alone, as that of `trace` is its own.
fn run_from(
    program: Program<'_>,
    way: Way,
    first: u64,
    block: &mut Buffer<BLOCK>,
    out: &mut Buffer<OUT>,
) -> Reached
    requires { first < 2 ^ 61 }
    ensures { Ended way first result.bytes result.number block.new out.new }
{
    block.clear();
    let mut bytes: u64 = 0;
    let mut number = first;
    for _ in 0..streams::READS {
        let come = program.read_behind(block);
        let ended = come.is_ok();
        let n = come.unwrap_or(0);
        if n == 0 {
            close(way, left_bad(Ok(number), block), out);
            if ended {
                program.say(out.as_slice());
            }
            return Reached { bytes, number };
        }
        // A cast: no `From` leads from a usize to it.
        bytes += n as u64;
        out.clear();
        let turned = writer::turn_part(way, number, block, out);
        let stopped = turned.is_err();
        let bad = left_bad(turned, block);
        let (Ok(next) | Err(next)) = turned;
        number = next;
        let written = program.write(out.as_slice()).is_ok();
        if stopped | !written {
            close(way, bad, out);
            if written {
                program.say(out.as_slice());
            }
            return Reached { bytes, number };
        }
    }
    close(way, left_bad(Ok(number), block), out);
    Reached { bytes, number }
}

// The whole input is turned.
pub fn turn_all(
    program: Program<'_>,
    way: Way,
    block: &mut Buffer<BLOCK>,
    out: &mut Buffer<OUT>,
) -> Reached
    ensures { Ended way 0 result.bytes result.number block.new out.new }
{
    run_from(program, way, 0, block, out)
}
