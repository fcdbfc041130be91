// Tests in their order.
ghost use Rattle.std.specs.Prelude.{◌≡◌, cond};
ghost use Rattle.refusals.specs.Refusals.{number_of};
ghost use Rattle.refusals.specs.Tests.{verdict_number};

use crate::Refusal;

// A function that answers an enum promises its number as well, here and elsewhere: a rule of the project.
/// The refusal where the test applies; `?` then passes over the tests after it.
pub fn refuse_if(applies: bool, refusal: Refusal) -> Result<(), Refusal>
    ensures verdict { result ≡ cond applies (Err refusal) (Ok tt) }
    ensures number { verdict_number result ≡ cond applies (number_of refusal) 0 }
{
    if applies { Err(refusal) } else { Ok(()) }
}
