// The same for a caller that lends bytes of its own, a block and the room for what comes out of it.
ghost use Rattle.std.specs.Prelude.{◌≡◌, length, take};
ghost use Rattle.writer.specs.Places.{part_room};
ghost use Rattle.exchange.specs.Going.{block_length, Ended};

use crate::turn_all;
use buffer::Buffer;
use listing::Way;
use streams::{Program, Streams};

// What the run comes to: how many bytes have come, how many lines or records are done, how many bytes are held at the front of the block, and the
// place after the refusal.
#[derive(Clone, Copy)]
pub struct Done {
    pub bytes: u64,
    pub number: u64,
    pub held: usize,
    pub next: usize,
}

// The whole input is turned for the program of that name.
pub fn run(stdio: Streams, name: &[u8], way: Way, block: &mut [u8], out: &mut [u8]) -> Done
    requires block_len { length block.old ≡ block_length }
    requires out_len { length out.old ≡ part_room block_length }
    ensures { Ended way 0 result.bytes result.number (take result.held block.new) (take result.next out.new) }
{
    let mut left = Buffer::new();
    let mut said = Buffer::new();
    let reached = turn_all(Program::of(stdio, name), way, &mut left, &mut said);
    let held = left.len();
    let next = said.len();
    block[..held].copy_from_slice(left.as_slice());
    out[..next].copy_from_slice(said.as_slice());
    Done {
        bytes: reached.bytes,
        number: reached.number,
        held,
        next,
    }
}
