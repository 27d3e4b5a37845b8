// The same for a caller that lends bytes of its own: the text stands from a place on, every other byte stays, and the place after it is given back.
ghost use Rattle.std.specs.Prelude.{◌+◌, ◌≤◌, length};
ghost use Rattle.rules.specs.Trace.{short};
ghost use Rattle.text.specs.Text.{line_text};
ghost use Rattle.text.specs.Puts.{Puts};
ghost use Rattle.text.specs.Rooms.{short_room};

use buffer::Buffer;

// The longest last line: its word, a number of 64 bits and the line feed.
const SHORT: usize = 6 + 20 + 1;

// The last line, of left-over bytes.
pub fn put_short(out: &mut [u8], at: usize, n: usize) -> usize
    requires { at + short_room ≤ length out.old }
    ensures puts { Puts out.old at (line_text (short n)) out.new result }
    ensures upper_bound { result ≤ at + short_room }
{
    let mut line = Buffer::<SHORT>::new();
    crate::put_short_line(&mut line, n);
    let end = at + line.len();
    out[at..end].copy_from_slice(line.as_slice());
    end
}
