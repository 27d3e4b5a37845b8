// From a record to its line, with its line feed.
ghost use Rattle.std.specs.Prelude.{◌≡◌, [], ◌∷◌, ◌++◌, ◌+◌, ◌≤◌, length, is_some};
ghost use Rattle.listing.specs.Line.{field_text, line_of};
ghost use Rattle.listing.specs.Listing.{line_feed};
ghost use Rattle.writer.specs.Lines.{fed, listed_room, fields_text};

use crate::asks;
use asks::Uses;
use buffer::Buffer;
use request::Fields;

// A field that is used: a space and its number.
fn put_used<const N: usize>(out: &mut Buffer<N>, used: bool, n: u32)
    requires { length out.old + 11 ≤ N }
    ensures puts { out.new ≡ out.old ++ field_text used n }
    ensures upper_bound { length out.new ≤ length out.old + 11 }
{
    if used {
        out.push(b' ');
        text::put_number(out, u64::from(n));
    }
}

// The line of a record's fields, with its line feed.
fn put_text<const N: usize>(out: &mut Buffer<N>, uses: Uses, fields: Fields)
    requires { length out.old + listed_room ≤ N }
    ensures puts { out.new ≡ out.old ++ (fields_text uses fields ++ line_feed ∷ []) }
    ensures upper_bound { length out.new ≤ length out.old + listed_room }
{
    text::put_number(out, u64::from(fields.operation));
    put_used(out, uses.object, u32::from(fields.object));
    put_used(out, uses.priority, u32::from(fields.priority));
    put_used(out, uses.number, fields.number);
    put_used(out, uses.parcel, fields.parcel);
    out.push(b'\n');
}

// The line of a record, with its line feed; nothing of a record that −8 refuses.
pub fn list_record<const N: usize>(record: &[u8], out: &mut Buffer<N>) -> Option<()>
    requires { length out.old + listed_room ≤ N }
    ensures asks { is_some result ≡ is_some (line_of «record».now) }
    ensures puts { out.new ≡ out.old ++ fed (line_of «record».now) }
    ensures upper_bound { length out.new ≤ length out.old + listed_room }
{
    request::decode(record)?;
    let fields = Fields {
        operation: record[0],
        object: record[1],
        priority: record[2],
        number: words::word_at(record, 4),
        parcel: words::word_at(record, 8),
    };
    let uses = asks::used_by(fields.operation)?;
    put_text(out, uses, fields);
    Some(())
}
