// An answer in document 01's numbers: its code, its value, and the 8 bytes of the answer area that hold both.
#![tactic(auto)]

ghost use Rattle.std.specs.Prelude.{◌≡◌, length};
ghost use Rattle.rules.specs.Answers.{code_of, value_of, area_length, area_of};

use rules::{Answer, Reply};

// An answer's code.
pub fn code(a: Answer) -> i32
    ensures { result ≡ code_of a }
{
    match a {
        Ok(Reply::Done { .. }) => 0,
        Ok(Reply::Blocked { .. } | Reply::NoneYet) => 1,
        Ok(Reply::Failed) => -5,
        Err(why) => i32::from(why),
    }
}

// An answer's value: 0 unless it is done or blocked.
pub fn value(a: Answer) -> u32
    ensures { result ≡ value_of a }
{
    match a {
        Ok(Reply::Done { value } | Reply::Blocked { ahead: value }) => value,
        Ok(Reply::NoneYet | Reply::Failed) | Err(_) => 0,
    }
}

// The answer area: the code, then the value.
pub fn put_answer(area: &mut [u8], a: Answer)
    requires { length area.old ≡ area_length }
    ensures { area.new ≡ area_of a }
{
    let code = code(a);
    words::put_word(area, 0, code.cast_unsigned());
    words::put_word(area, rules::VALUE_FROM, value(a));
}
