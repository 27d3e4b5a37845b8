// "The reader keeps the lent buffer and its place in it": a small reader over the bytes of a trace. The work is in
// `read_at`, on the bytes and the place; `read_from` is for callers, who then never hold a reader themselves.
#![tactic(auto)]

ghost use Rattle.std.specs.Prelude.{◌≡◌};
ghost use Rattle.reader.specs.Reading.{read_at};

#[derive(Clone, Copy)]
pub struct TraceReader<'a> {
    pub bytes: &'a [u8],
    pub at: usize,
}

// What stands at a place: a whole record, left-over bytes, or nothing; three things, of which an Option would tell two.
#[derive(Clone, Copy)]
pub enum Read {
    Record { at: usize },
    Short { n: usize },
    End,
}

// What stands at a place of the bytes.
#[tactic(auto, unfolding(crate::specs::Reading::read_at))]
fn read_at(bytes: &[u8], at: usize) -> Read
    ensures { result ≡ read_at bytes.now at }
{
    if at < bytes.len() {
        let n = bytes.len() - at;
        if rules::REQUEST <= n {
            Read::Record { at }
        } else {
            Read::Short { n }
        }
    } else {
        Read::End
    }
}

impl<'a> TraceReader<'a> {
    // A reader at the first byte.
    pub fn new(bytes: &'a [u8]) -> Self
        ensures { (result.bytes ≡ bytes.entry) × (result.at ≡ 0) }
    {
        TraceReader { bytes, at: 0 }
    }

    // The same bytes at another place.
    pub fn moved(self, at: usize) -> Self
        ensures { (result.bytes ≡ self.entry.bytes) × (result.at ≡ at) }
    {
        TraceReader {
            bytes: self.bytes,
            at,
        }
    }

    // What stands at the reader's place.
    pub fn next(self) -> Read
        ensures { result ≡ read_at self.entry.bytes.now self.entry.at }
    {
        read_at(self.bytes, self.at)
    }
}

// What a reader of the bytes finds at a place.
pub fn read_from(bytes: &[u8], at: usize) -> Read
    ensures { result ≡ read_at bytes.now at }
{
    TraceReader::new(bytes).moved(at).next()
}
