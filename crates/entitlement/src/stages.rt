// The tests of a case's dates, then those of the member, in their order.
ghost use Rattle.std.specs.Prelude.{◌≡◌};
ghost use Rattle.refusals.specs.Tests.{first, verdict_number};
ghost use Rattle.entitlement.specs.Entitlement.{entitlement_tests};

use crate::dates::{age_fault, dates_fault, order_fault, refer_fault};
use cases::{Case, RuledCase};
use refusals::{Refusal, refuse_if};

// The codes that are accepted: of a deferred member, and of a defined benefit scheme.
const DEFERRED: u8 = 1;

const DEFINED_BENEFIT: u8 = 1;

// The least qualifying service, in complete months.
const LEAST_SERVICE: u16 = 3;

/// Refusals 6, 17, 7, 8, 9, 11 and 10 of a case, in this order: the first that applies.
pub fn check_entitlement(case: &Case) -> Result<(), Refusal>
    ensures verdict { result ≡ first (entitlement_tests case.now) }
    ensures number { verdict_number result ≡ verdict_number (first (entitlement_tests case.now)) }
{
    let ruled = RuledCase::new(case);
    refuse_if(dates_fault(&ruled), Refusal::Dates)?;
    refuse_if(order_fault(&ruled), Refusal::Order)?;
    refuse_if(case.status != DEFERRED, Refusal::Status)?;
    refuse_if(case.receiver != DEFINED_BENEFIT, Refusal::Receiver)?;
    refuse_if(case.service < LEAST_SERVICE, Refusal::Service)?;
    refuse_if(age_fault(&ruled), Refusal::Age)?;
    refuse_if(refer_fault(case), Refusal::Refer)
}
