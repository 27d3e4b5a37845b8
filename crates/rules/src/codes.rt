// The words that stand in a table's bytes or in an answer's code, as these numbers.
ghost use Rattle.std.specs.Prelude.{◌≡◌};
ghost use Rattle.rules.specs.Answers.{refusal_code};
ghost use Rattle.rules.specs.Table.{outcome_of, outcome_byte};

use crate::{Outcome, Refusal};

// "7 outcome, a signed byte": any byte but 0 and 1 says that the wait failed.
impl From<u8> for Outcome {
    #[tactic(auto, unfolding(crate::specs::Table::outcome_of))]
    fn from(byte: u8) -> Outcome
        ensures { result ≡ outcome_of byte }
    {
        match byte {
            0 => Outcome::Done,
            1 => Outcome::NoneYet,
            _ => Outcome::Failed,
        }
    }
}

impl From<Outcome> for u8 {
    fn from(outcome: Outcome) -> u8
        ensures { result ≡ outcome_byte outcome }
    {
        match outcome {
            Outcome::Done => 0,
            Outcome::NoneYet => 1,
            Outcome::Failed => 251,
        }
    }
}

// −1 to −8.
impl From<Refusal> for i32 {
    fn from(why: Refusal) -> i32
        ensures { result ≡ refusal_code why }
    {
        match why {
            Refusal::BadThread => -1,
            Refusal::BadPriority => -2,
            Refusal::BadTicks => -3,
            Refusal::BadState => -4,
            Refusal::BadOperation => -5,
            Refusal::BadSemaphore => -6,
            Refusal::BadTable => -7,
            Refusal::BadRecord => -8,
        }
    }
}
