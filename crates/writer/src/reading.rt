// From a line, without its line feed, to its fields.
ghost use Rattle.std.specs.Prelude.{◌≡◌, true, ◌+◌, ◌*◌, ◌-◌, min, length, ◌≤◌, is_some, unwrap_or, [], ◌++◌};
ghost use Rattle.rules.specs.Requests.{request_length};
ghost use Rattle.request.specs.Written.{record_bytes};
ghost use Rattle.listing.specs.Line.{is_digit, number_from, record_of};
ghost use Rattle.writer.specs.Lines.{too_large, front_of, told, any_field, FieldRead, rest_of, bytes_read};

use crate::{LINE_MOST, TOO_LARGE, asks};
use buffer::Buffer;
use request::Fields;

// A number that a text begins with, 2^32 in the place of a larger one, and the text after it.
#[derive(Clone, Copy)]
pub struct Front<'a> {
    pub number: u64,
    pub rest: &'a [u8],
}

// A number with a digit written behind it.
fn with_digit(n: u64, c: u8) -> u64
    requires { (n ≤ too_large) × (is_digit c ≡ true) }
    ensures { result ≡ min (n * 10 + (c - 48)) too_large }
{
    (n * 10 + u64::from(c - b'0')).min(TOO_LARGE)
}

// The number that a text begins with. The digits are counted and read in one loop: `take_while` and `fold`, each over them all, take twice as long.
fn number_from(text: &[u8]) -> Option<Front<'_>>
    ensures { front_of result ≡ told (number_from text.now) }
{
    let mut number: u64 = 0;
    let mut n: usize = 0;
    while n < text.len() && text[n].is_ascii_digit() {
        number = with_digit(number, text[n]);
        n += 1;
    }
    if n == 0 {
        return None;
    }
    let (_, rest) = text.split_at(n);
    Some(Front { number, rest })
}

// A field of any number, and the text after it: a space and the number where it is used, and 0 where it is not.
fn any_field(used: bool, text: &[u8]) -> Option<Front<'_>>
    ensures { front_of result ≡ told (any_field used text.now) }
{
    if !used {
        return Some(Front {
            number: 0,
            rest: text,
        });
    }
    number_from(text.strip_prefix(b" ")?)
}

// A field whose number its type holds, and the text after it.
fn field_from<T: TryFrom<u64, Error: Drop>>(used: bool, text: &[u8]) -> Option<(T, &[u8])>
    ensures { FieldRead T.try_from_gives (told (any_field used text.now)) result }
{
    let field = any_field(used, text)?;
    Some((T::try_from(field.number).ok()?, field.rest))
}

// The fields that an operation uses, at the front of the rest of a line, and no more.
fn fields_from(operation: u8, rest: &[u8]) -> Option<Fields>
    ensures { bytes_read result ≡ rest_of operation rest.now }
{
    let uses = asks::used_by(operation)?;
    let (object, rest) = field_from(uses.object, rest)?;
    let (priority, rest) = field_from(uses.priority, rest)?;
    let (number, rest) = field_from(uses.number, rest)?;
    let (parcel, rest) = field_from(uses.parcel, rest)?;
    if !rest.is_empty() {
        return None;
    }
    Some(Fields {
        operation,
        object,
        priority,
        number,
        parcel,
    })
}

// What a line, without its line feed, says.
fn read_line(line: &[u8]) -> Option<Fields>
    ensures { bytes_read result ≡ record_of line.now }
{
    if LINE_MOST < line.len() {
        return None;
    }
    let first = number_from(line)?;
    fields_from(u8::try_from(first.number).ok()?, first.rest)
}

// The record of a line's fields.
fn put_fields<const N: usize>(out: &mut Buffer<N>, fields: Fields)
    requires { length out.old + request_length ≤ N }
    ensures { out.new ≡ out.old ++ record_bytes fields.operation fields.object fields.priority fields.number fields.parcel }
{
    out.extend(&[fields.operation, fields.object, fields.priority, 0]);
    out.extend(&fields.number.to_le_bytes());
    out.extend(&fields.parcel.to_le_bytes());
}

// The record of a line, without its line feed; nothing of a bad line.
pub fn write_line<const N: usize>(line: &[u8], out: &mut Buffer<N>) -> Option<()>
    requires { length out.old + request_length ≤ N }
    ensures taken { is_some result ≡ is_some (record_of line.now) }
    ensures puts { out.new ≡ out.old ++ unwrap_or (record_of line.now) [] }
{
    put_fields(out, read_line(line)?);
    Some(())
}
