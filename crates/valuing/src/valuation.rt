// Valuing a case: the first refusal that applies, or the payment.
ghost use Rattle.std.specs.Prelude.{◌≡◌};
ghost use Rattle.refusals.specs.Tests.{first};
ghost use Rattle.answers.specs.Answer.{amount_tests, outcome_of, outcome_by, answer_of, outcome_numbers};
ghost use Rattle.answers.specs.Compare.{Demand3};
ghost use Rattle.answers.specs.Exact.{GrossNearExact};

use crate::FormedCase;
use crate::sum::TotalledCase;
use answers::{Items, Outcome};
use cases::Case;
use entitlement::check_entitlement;
use refusals::{Refusal, refuse_if};

// The payment with its items, or the first of refusals 12 to 14 and 16 that applies.
#[tactic(auto, using(crate::proofs::Stages::by_earlier, crate::proofs::Stages::by_total, refusals::proofs::Order::handed_on), unfolding(answers::specs::Answer::factor_fault, sums::specs::Sum::scheme_pays_fault))]
fn value_amounts(formed: FormedCase<'_>) -> Result<Items, Refusal>
    ensures { outcome_of result ≡ outcome_by (first (amount_tests formed.entry.case.now)) formed.entry.case.now }
{
    let case = TotalledCase::new(formed);
    refuse_if(case.totals.absent, Refusal::Factor)?;
    refuse_if(case.totals.excess, Refusal::Debit)?;
    case.items()
}

// The payment with its items, or why nothing is paid.
pub(crate) fn value_formed(formed: FormedCase<'_>) -> Result<Items, Refusal>
    ensures { outcome_of result ≡ answer_of formed.entry.case.now }
{
    check_entitlement(formed.case)?;
    value_amounts(formed)
}

fn value_items(case: &Case) -> Result<Items, Refusal>
    ensures { outcome_of result ≡ answer_of case.now }
{
    value_formed(FormedCase::new(case)?)
}

/// What is paid for a case, or why it is refused. Amounts are in pence, items in hundredths of a penny (01, 'The sum').
#[tactic(auto, using(answers::proofs::Comparison::demand3, answers::proofs::Exact::answer_near_exact))]
pub fn value(case: &Case) -> Outcome
    ensures answer { result ≡ answer_of case.now }
    ensures numbers { outcome_numbers result ≡ outcome_numbers (answer_of case.now) }
    ensures compared { Demand3 case.now result }
    ensures near { GrossNearExact case.now result }
{
    Outcome::from(value_items(case))
}
