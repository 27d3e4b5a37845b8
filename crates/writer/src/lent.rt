// The same for a caller that lends bytes, of any length: what comes out is put at their front. Each line or record goes through a buffer of its own.
ghost use Rattle.std.specs.Prelude.{if◌then◌else◌, ◌≡◌, ◌+◌, ◌≤◌, ◌<◌, ◌^◌, length, take, None, Some};
ghost use Rattle.std.proofs.lemmas.List.Edits.{sets};
ghost use Rattle.text.specs.Puts.{Puts};
ghost use Rattle.listing.specs.Listing.{bytes_of, refusal_text};
ghost use Rattle.listing.specs.Parts.{part_of, stops, holds};
ghost use Rattle.writer.specs.Places.{part_room, refusal_room, LentBlock};

use crate::{blocks, putting, reading};
use buffer::Buffer;
use listing::Way;
use rules::REQUEST;

// The longest line of a record, with its line feed.
const LISTED_MOST: usize = 48;

// The longest refusal.
const REFUSAL_MOST: usize = 32;

// How far a block is turned: how many lines or records are done, the place after them, the place after what is put out of them, and whether
// what stands next is bad.
#[derive(Clone, Copy)]
struct Filled {
    done: usize,
    at: usize,
    next: usize,
    bad: bool,
}

// Where a text stands after a part: the number of the next line or record, how many bytes are held at the front of the block, the place after
// what is put out of the part, and whether the text is stopped by what is bad.
#[derive(Clone, Copy)]
pub struct Turned {
    pub number: u64,
    pub held: usize,
    pub next: usize,
    pub stopped: bool,
}

// What a buffer has is put from byte `at` on; the place after it.
fn put_at<const N: usize>(out: &mut [u8], at: usize, text: &Buffer<N>) -> usize
    requires { at + length text.now ≤ length out.old }
    ensures { Puts out.old at text.now out.new result }
{
    let end = at + text.len();
    out[at..end].copy_from_slice(text.as_slice());
    end
}

// The records of a text's whole lines.
fn write_block(text: &[u8], out: &mut [u8]) -> Filled
    requires { part_room (length text.now) ≤ length out.old }
    ensures { LentBlock Way.ToRecords text.now out.old out.new result.done result.at result.next result.bad }
{
    let mut done: usize = 0;
    let mut at: usize = 0;
    let mut next: usize = 0;
    while let Some(n) = blocks::line_length(&text[at..]) {
        let end = at + n;
        let mut record = Buffer::<REQUEST>::new();
        if reading::write_line(&text[at..end], &mut record).is_none() {
            return Filled {
                done,
                at,
                next,
                bad: true,
            };
        }
        done += 1;
        at = end + 1;
        next = put_at(out, next, &record);
    }
    Filled {
        done,
        at,
        next,
        bad: false,
    }
}

// The lines of the whole records.
fn list_block(records: &[u8], out: &mut [u8]) -> Filled
    requires { part_room (length records.now) ≤ length out.old }
    ensures { LentBlock Way.ToListing records.now out.old out.new result.done result.at result.next result.bad }
{
    let mut done: usize = 0;
    let mut at: usize = 0;
    let mut next: usize = 0;
    for record in records.chunks_exact(REQUEST) {
        let mut line = Buffer::<LISTED_MOST>::new();
        if putting::list_record(record, &mut line).is_none() {
            return Filled {
                done,
                at,
                next,
                bad: true,
            };
        }
        done += 1;
        at += REQUEST;
        next = put_at(out, next, &line);
    }
    Filled {
        done,
        at,
        next,
        bad: false,
    }
}

// The whole lines or records of a block, up to the first that is bad, turned and put to the start of `out`.
fn turn_block(way: Way, block: &[u8], out: &mut [u8]) -> Filled
    requires { part_room (length block.now) ≤ length out.old }
    ensures { LentBlock way block.now out.old out.new result.done result.at result.next result.bad }
{
    match way {
        Way::ToRecords => write_block(block, out),
        Way::ToListing => list_block(block, out),
    }
}

// The first `n` bytes of the block have come, and the next line or record has number `number`: those that are whole are turned, up to the first
// that is bad, and put to the start of `out`. What is left over moves to the front of the block; where the text stops, all of it is held.
pub fn turn(way: Way, number: u64, block: &mut [u8], n: usize, out: &mut [u8]) -> Turned
    requires n_in_bounds { n ≤ length block.old }
    requires n_bound { number + n < 2 ^ 64 }
    requires n_in_bounds_2 { part_room n ≤ length out.old }
    ensures number { result.number ≡ number + length (part_of way (take n block.old)).done }
    ensures few { result.number ≤ number + n }
    ensures stopped { result.stopped ≡ stops way (take n block.old) }
    ensures held { result.held ≡ length (holds way (take n block.old)) }
    ensures block { block.new ≡ sets block.old 0 (holds way (take n block.old)) }
    ensures out { Puts out.old 0 (bytes_of way (part_of way (take n block.old)).done) out.new result.next }
    ensures room { result.next ≤ length out.old }
{
    let part = turn_block(way, &block[..n], out);
    let held = n - part.at;
    // A cast: no `From` leads from a usize to it.
    let number = number + part.done as u64;
    let next = part.next;
    if part.bad | crate::is_too_long(way, held) {
        return Turned {
            number,
            held: n,
            next,
            stopped: true,
        };
    }
    block.copy_within(part.at..n, 0);
    Turned {
        number,
        held,
        next,
        stopped: false,
    }
}

// Order 2: "Refusals: bad line, with its number from 0." Where there is one, it goes to the start of `out`; the place after it is given back.
pub fn refuse(way: Way, number: u64, bad: bool, out: &mut [u8]) -> usize
    requires { refusal_room ≤ length out.old }
    ensures line { Puts out.old 0 (refusal_text way (if bad then Some number else None)) out.new result }
    ensures room { result ≤ refusal_room }
{
    let mut refusal = Buffer::<REFUSAL_MOST>::new();
    crate::put_refusal(way, bad.then_some(number), &mut refusal);
    put_at(out, 0, &refusal)
}
