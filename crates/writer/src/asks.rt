// Which fields an operation uses. It is asked of `request`, so no operation is known here by its number.
ghost use Rattle.std.specs.Prelude.{◌≡◌};
ghost use Rattle.rules.specs.Requests.{operation_of};
ghost use Rattle.writer.specs.Lines.{uses_of};

use request::Fields;

// Which of its four fields an operation uses.
#[derive(Clone, Copy)]
pub struct Uses {
    pub object: bool,
    pub priority: bool,
    pub number: bool,
    pub parcel: bool,
}

// The fields that an operation uses, if there is an operation of that number: those that it may be asked with.
pub fn used_by(operation: u8) -> Option<Uses>
    ensures { result ≡ uses_of (operation_of operation) }
{
    let none = Fields {
        operation,
        object: 0,
        priority: 0,
        number: 0,
        parcel: 0,
    };
    request::request_of(none)?;
    Some(Uses {
        object: request::request_of(Fields { object: 1, ..none }).is_some(),
        priority: request::request_of(Fields {
            priority: 1,
            ..none
        })
        .is_some(),
        number: request::request_of(Fields { number: 1, ..none }).is_some(),
        parcel: request::request_of(Fields { parcel: 1, ..none }).is_some(),
    })
}
