// The outcome of working out a payment.
ghost use Rattle.std.specs.Prelude.{◌≡◌};
ghost use Rattle.answers.specs.Answer.{outcome_of};

use crate::{Items, Outcome};
use refusals::Refusal;

impl From<Result<Items, Refusal>> for Outcome {
    ghost from_gives = { λ answer outcome. outcome ≡ outcome_of answer };

    fn from(answer: Result<Items, Refusal>) -> Outcome {
        match answer {
            Ok(items) => Outcome::Paid(items),
            Err(refusal) => Outcome::Refused(refusal),
        }
    }
}
