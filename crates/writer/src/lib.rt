// A listing turned into request records, and records into a listing, part by part as a program reads them. What a line means, and what comes
// out of a part, is said in `listing`.
#![tactic(auto)]

ghost use Rattle.std.specs.Prelude.{◌≡◌, ◌++◌, ◌+◌, ◌≤◌, ◌<◌, ◌^◌, length};
ghost use Rattle.std.specs.Result.{is_err};
ghost use Rattle.listing.specs.Listing.{bytes_of, bad_what, refusal_text};
ghost use Rattle.listing.specs.Parts.{part_of, too_long, stops, holds};
ghost use Rattle.writer.specs.Places.{part_room, refusal_room, reached, Block};

use buffer::Buffer;
use listing::Way;

mod asks;
mod blocks;
mod lent;
mod putting;
mod reading;

pub use lent::{Turned, refuse, turn};

// What a number that no field can hold is told as: 2^32.
const TOO_LARGE: u64 = 4294967296;

// The most characters of a line before its line feed.
const LINE_MOST: usize = 40;

// How far a block is turned: how many lines or records are done, and the place after them.
#[derive(Clone, Copy)]
pub struct Progress {
    pub done: usize,
    pub at: usize,
}

// The whole lines or records of a block are turned: how far, as an error where the next one is bad.
fn turn_block<const N: usize>(
    way: Way,
    block: &[u8],
    out: &mut Buffer<N>,
) -> Result<Progress, Progress>
    requires { length out.old + part_room (length block.now) ≤ N }
    ensures { Block way block.now out.old out.new (reached result).done (reached result).at (is_err result) }
{
    match way {
        Way::ToRecords => blocks::write_block(block, out),
        Way::ToListing => blocks::list_block(block, out),
    }
}

// Is a line that has so many characters and has not ended too long already. Each way is told apart in a place of its own, by one match: a trait of
// two ways would have as many.
fn is_too_long(way: Way, n: usize) -> bool
    ensures { result ≡ too_long way n }
{
    match way {
        Way::ToRecords => LINE_MOST < n,
        Way::ToListing => false,
    }
}

// The bytes of the block have come, and the next line or record has number `number`: those that are whole are turned, up to the first that is
// bad, and what comes out of them is put behind what `out` has. What is left over stays in the block, and the number of the next one is given back; as an
// error where that one is bad and the text stops, and then all of the block stays.
pub fn turn_part<const N: usize, const M: usize>(
    way: Way,
    number: u64,
    block: &mut Buffer<N>,
    out: &mut Buffer<M>,
) -> Result<u64, u64>
    requires number_bound { number + length block.old < 2 ^ 64 }
    requires room { length out.old + part_room (length block.old) ≤ M }
    ensures number { reached result ≡ number + length (part_of way block.old).done }
    ensures few { reached result ≤ number + length block.old }
    ensures stopped { is_err result ≡ stops way block.old }
    ensures block { block.new ≡ holds way block.old }
    ensures out { out.new ≡ out.old ++ bytes_of way (part_of way block.old).done }
    ensures room { length out.new ≤ M }
{
    let turned = turn_block(way, block.as_slice(), out);
    let bad = turned.is_err();
    let (Ok(part) | Err(part)) = turned;
    // A cast: no `From` leads from a usize to it.
    let number = number + part.done as u64;
    if bad | is_too_long(way, block.len() - part.at) {
        return Err(number);
    }
    block.drop_front(part.at);
    Ok(number)
}

// What is bad.
fn put_what<const N: usize>(way: Way, out: &mut Buffer<N>)
    requires { length out.old + refusal_room ≤ N }
    ensures puts { out.new ≡ out.old ++ bad_what way }
    ensures upper_bound { length out.new ≤ length out.old + 11 }
{
    match way {
        Way::ToRecords => out.extend(b"bad line "),
        Way::ToListing => out.extend(b"bad record "),
    }
}

// Order 2: "Refusals: bad line, with its number from 0." Where there is one, it is put behind what `out` has.
pub fn put_refusal<const N: usize>(way: Way, bad: Option<u64>, out: &mut Buffer<N>)
    requires { length out.old + refusal_room ≤ N }
    ensures line { out.new ≡ out.old ++ refusal_text way bad }
    ensures room { length out.new ≤ length out.old + refusal_room }
{
    if let Some(number) = bad {
        put_what(way, out);
        text::put_field(out, number, b'\n');
    }
}
