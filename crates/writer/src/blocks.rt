// The whole lines of a text, or the whole records of some bytes, one after the other up to the first that is bad.
ghost use Rattle.std.specs.Prelude.{◌≡◌, ◌+◌, ◌≤◌, length, eqb, position};
ghost use Rattle.std.specs.Result.{is_err};
ghost use Rattle.listing.specs.Listing.{line_feed};
ghost use Rattle.writer.specs.Places.{part_room, reached, Block};

use crate::{Progress, putting, reading};
use buffer::Buffer;
use listing::Way;

// How many characters stand before the first line feed, if there is one.
pub fn line_length(text: &[u8]) -> Option<usize>
    ensures { result ≡ position (λ c. eqb c line_feed) text.now }
{
    text.iter().position(|c| *c == b'\n')
}

// The records of a text's whole lines; an error where the next line is bad. Counted by hand are only the two numbers that are given back.
// `enumerate` would ask for a bound on the first, and has no place for the second.
pub fn write_block<const N: usize>(text: &[u8], out: &mut Buffer<N>) -> Result<Progress, Progress>
    requires { length out.old + part_room (length text.now) ≤ N }
    ensures { Block Way.ToRecords text.now out.old out.new (reached result).done (reached result).at (is_err result) }
{
    let mut done: usize = 0;
    let mut at: usize = 0;
    while let Some(n) = line_length(&text[at..]) {
        let end = at + n;
        if reading::write_line(&text[at..end], out).is_none() {
            return Err(Progress { done, at });
        }
        done += 1;
        at = end + 1;
    }
    Ok(Progress { done, at })
}

// The lines of the whole records; an error where the next record is bad. The two numbers are counted as above.
pub fn list_block<const N: usize>(records: &[u8], out: &mut Buffer<N>) -> Result<Progress, Progress>
    requires { length out.old + part_room (length records.now) ≤ N }
    ensures { Block Way.ToListing records.now out.old out.new (reached result).done (reached result).at (is_err result) }
{
    let mut done: usize = 0;
    let mut at: usize = 0;
    for record in records.chunks_exact(rules::REQUEST) {
        if putting::list_record(record, out).is_none() {
            return Err(Progress { done, at });
        }
        done += 1;
        at += rules::REQUEST;
    }
    Ok(Progress { done, at })
}
