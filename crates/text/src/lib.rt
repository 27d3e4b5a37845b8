// Texts that programs print, put into a buffer one behind the other: numbers in decimal, and the lines of a trace. Each function puts its text
// behind what the buffer has.
#![tactic(auto)]

ghost use Rattle.std.specs.Prelude.{◌≡◌, [], ◌∷◌, ◌++◌, ◌+◌, ◌≤◌, ◌<◌, length, take};
ghost use Rattle.rules.specs.Trace.{served, short};
ghost use Rattle.text.specs.Text.{decimal, signed, line_text};
ghost use Rattle.text.specs.Rooms.{line_room, short_room};

use buffer::Buffer;

mod lent;

pub use lent::put_short;

// The digits of a number at the front of a place that has room for every one: those before the last, then the last. How many they are is given back.
// A digit fits in a byte, by a cast. An array is filled and not the buffer: a function that is generic and calls itself was tried, and the check can't take its goal.
fn put_digits(digits: &mut [u8; 20], n: u64) -> usize
    ensures value { result ≡ length (decimal n) }
    ensures digits { take result digits.new ≡ decimal n }
{
    if n < 10 {
        digits[0] = b'0' + n as u8;
        1
    } else {
        let last = put_digits(digits, n / 10);
        digits[last] = b'0' + (n % 10) as u8;
        last + 1
    }
}

// A number of one digit or two, as most are that are printed: it needs no place but the buffer's own.
fn put_small<const N: usize>(out: &mut Buffer<N>, n: u64)
    requires { (n < 100) × (length out.old + length (decimal n) ≤ N) }
    ensures { out.new ≡ out.old ++ decimal n }
{
    if n < 10 {
        return out.push(b'0' + n as u8);
    }
    out.push(b'0' + (n / 10) as u8);
    out.push(b'0' + (n % 10) as u8);
}

// A number in decimal. std's `Display` is no plainer here: it writes through a formatter that can fail, and its digits are another definition.
pub fn put_number<const N: usize>(out: &mut Buffer<N>, n: u64)
    requires { length out.old + length (decimal n) ≤ N }
    ensures { out.new ≡ out.old ++ decimal n }
{
    if n < 100 {
        return put_small(out, n);
    }
    let mut digits = [0u8; 20];
    let end = put_digits(&mut digits, n);
    out.extend(&digits[..end]);
}

// A number and the byte after it.
pub fn put_field<const N: usize>(out: &mut Buffer<N>, n: u64, after: u8)
    requires { length out.old + length (decimal n) < N }
    ensures { out.new ≡ out.old ++ (decimal n ++ after ∷ []) }
{
    put_number(out, n);
    out.push(after);
}

// A number with its sign. −2^63 has no other side in an i64, so a negative number goes by its size, which is unsigned.
pub fn put_signed<const N: usize>(out: &mut Buffer<N>, n: i64)
    requires { length out.old + length (signed n) ≤ N }
    ensures { out.new ≡ out.old ++ signed n }
{
    if n < 0 {
        out.push(b'-');
    }
    put_number(out, n.unsigned_abs());
}

// The line of a record that was served.
pub fn put_line<const N: usize>(
    out: &mut Buffer<N>,
    number: u64,
    code: i32,
    value: u32,
    running: u8,
)
    requires { length out.old + line_room ≤ N }
    ensures puts { out.new ≡ out.old ++ line_text (served number code value running) }
    ensures upper_bound { length out.new ≤ length out.old + line_room }
{
    put_field(out, number, b' ');
    put_signed(out, i64::from(code));
    out.push(b' ');
    put_field(out, u64::from(value), b' ');
    put_field(out, u64::from(running), b'\n');
}

// The last line, of left-over bytes.
pub fn put_short_line<const N: usize>(out: &mut Buffer<N>, n: usize)
    requires { length out.old + short_room ≤ N }
    ensures puts { out.new ≡ out.old ++ line_text (short n) }
    ensures upper_bound { length out.new ≤ length out.old + short_room }
{
    out.extend(b"short ");
    // A cast: no `From` leads from a usize to it.
    put_field(out, n as u64, b'\n');
}
