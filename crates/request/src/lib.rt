// A request record of 12 bytes, decoded to the request that it asks.
#![tactic(auto)]

ghost use Rattle.std.specs.Prelude.{◌≡◌};
ghost use Rattle.rules.specs.Requests.{request_of, decode_request};

use rules::Request;

// A record's fields, of which each operation uses some: "byte 0 operation; 1 object; 2 priority; 3 zero; 4-7 number; 8-11 data".
#[derive(Clone, Copy)]
pub struct Fields {
    pub operation: u8,
    pub object: u8,
    pub priority: u8,
    pub number: u32,
    pub parcel: u32,
}

// The request that a record's fields ask; none where no operation has that number, or where a field that it does not use is not zero.
#[inline(always)]
#[tactic(auto, unfolding(rules::specs::Requests::request_of))]
pub fn request_of(fields: Fields) -> Option<Request>
    ensures { result ≡ request_of fields.operation fields.object fields.priority fields.number fields.parcel }
{
    // The fields that are zero.
    let o = fields.object == 0;
    let p = fields.priority == 0;
    let n = fields.number == 0;
    let d = fields.parcel == 0;
    // The names that an operation has for its fields.
    let thread = fields.object;
    let semaphore = fields.object;
    let priority = fields.priority;
    let turn = fields.number;
    let number = fields.number;
    let parcel = fields.parcel;
    match fields.operation {
        0 => (o & p & n & d).then_some(Request::Yield),
        1 => d.then_some(Request::Create {
            thread,
            priority,
            turn,
        }),
        2 => (p & n & d).then_some(Request::Delete { thread }),
        3 => None,
        4 => (p & n & d).then_some(Request::Suspend { thread }),
        5 => (p & n & d).then_some(Request::Resume { thread }),
        6 => (o & p & d).then_some(Request::Delay { number }),
        7 => (p & n & d).then_some(Request::Cancel { thread }),
        8 => p.then_some(Request::Send {
            thread,
            number,
            parcel,
        }),
        9 => (p & n).then_some(Request::SendFromInterrupt { thread, parcel }),
        10 => (o & p & d).then_some(Request::Receive { number }),
        11 => (p & d).then_some(Request::Make { semaphore, number }),
        12 => (p & n & d).then_some(Request::Drop { semaphore }),
        13 => (p & d).then_some(Request::Pend { semaphore, number }),
        14 => (p & n & d).then_some(Request::Abort { thread }),
        15 => (p & d).then_some(Request::Post { semaphore, number }),
        16 => (p & d).then_some(Request::PostFromInterrupt { semaphore, number }),
        17 => (o & p & n & d).then_some(Request::Lock),
        18 => (o & p & n & d).then_some(Request::Unlock),
        19 => (o & p & n & d).then_some(Request::Tick),
        20 => (p & n & d).then_some(Request::Outcome { thread }),
        21 => (o & p & d).then_some(Request::Ticks { number }),
        22 => (o & p & n & d).then_some(Request::Nearest),
        23 => (n & d).then_some(Request::SetPriority { thread, priority }),
        24 => (p & d).then_some(Request::SetTurn { thread, turn }),
        _ => None,
    }
}

// What a record of any length asks, if it asks anything.
#[tactic(auto, unfolding(rules::specs::Requests::decode_request))]
pub fn decode(record: &[u8]) -> Option<Request>
    ensures { result ≡ decode_request «record».now }
{
    if record.len() != rules::REQUEST {
        return None;
    }
    if record[3] != 0 {
        return None;
    }
    request_of(Fields {
        operation: record[0],
        object: record[1],
        priority: record[2],
        number: words::word_at(record, 4),
        parcel: words::word_at(record, 8),
    })
}
