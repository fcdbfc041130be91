// Refusals 3, 4 and 5 of a case.
ghost use Rattle.std.specs.Prelude.{◌≡◌, ◌||◌, ltb};
ghost use Rattle.refusals.specs.Tests.{first, verdict_number};
ghost use Rattle.cases.specs.Form as form;

use crate::flags::{choice_optant_flag, gmp_flag, transfer_flag, unused_flag};
use crate::lines::too_large;
use crate::{Case, Faults, RuledCase};
use refusals::{Refusal, refuse_if};

// The least revaluation factor that a case may have, and the greatest, in ten-thousandths.
const LEAST_REVALUATION: u32 = 10_000;

const MOST_REVALUATION: u32 = 100_000;

// Whether the kind is not listed, or does not allow the count of lines.
#[tactic(auto, unfolding(crate::specs::Form::kind_fault))]
fn kind_fault(ruled: &RuledCase<'_>) -> bool
    ensures { result ≡ form.kind_fault ruled.now.case.now.kind ruled.now.case.now.count }
{
    !(1..=ruled.rules.lines).contains(&ruled.case.count)
}

// Whether a field before the lines that must be zero is not.
#[tactic(auto, unfolding(crate::specs::Form::head_reserved_fault))]
fn head_reserved_fault(ruled: &RuledCase<'_>) -> bool
    ensures { result ≡ form.head_reserved_fault ruled.now.case.now }
{
    let RuledCase { case, rules, .. } = ruled;
    unused_flag(case.flags)
        || (!gmp_flag(case.flags) && !case.state_pension.is_zero())
        || (!transfer_flag(case.flags) && case.transfer != 0)
        || (!rules.transfers && (transfer_flag(case.flags) || case.contributions != 0))
        || (!rules.choice_optants && choice_optant_flag(case.flags))
        || (!rules.sex && case.sex != 0)
}

// Codes are decided by a match on ranges, as 01 has it: one to a list, since each ends at another code.
fn is_status_listed(status: u8) -> bool
    ensures { result ≡ form.status_listed status }
{
    matches!(status, 1..=4)
}

fn is_receiver_listed(receiver: u8) -> bool
    ensures { result ≡ form.receiver_listed receiver }
{
    matches!(receiver, 1..=3)
}

fn is_sex_listed(sex: u8) -> bool
    ensures { result ≡ form.sex_listed sex }
{
    matches!(sex, 1..=2)
}

#[tactic(auto, unfolding(crate::specs::Form::dates_range_fault))]
fn dates_range_fault(case: &Case) -> bool
    ensures { result ≡ form.dates_range_fault case.now }
{
    !case.birth.is_real()
        || !case.leaving.is_real()
        || !case.guarantee.is_real()
        || (gmp_flag(case.flags) && !case.state_pension.is_real())
}

// Whether the revaluation factor, an amount or a date before the lines is out of its range.
fn is_amount_or_date_out_of_range(case: &Case) -> bool
    ensures { result ≡ (ltb case.now.revaluation 10000 || ltb 100000 case.now.revaluation || form.too_large case.now.avc || form.too_large case.now.transfer || form.too_large case.now.contributions || form.dates_range_fault case.now) }
{
    !(LEAST_REVALUATION..=MOST_REVALUATION).contains(&case.revaluation)
        || too_large(case.avc)
        || too_large(case.transfer)
        || too_large(case.contributions)
        || dates_range_fault(case)
}

// Whether a field before the lines is out of its range.
#[tactic(auto, unfolding(crate::specs::Form::head_range_fault))]
fn head_range_fault(ruled: &RuledCase<'_>) -> bool
    ensures { result ≡ form.head_range_fault ruled.now.case.now }
{
    let case = ruled.case;
    case.number == 0
        || !is_status_listed(case.status)
        || !is_receiver_listed(case.receiver)
        || (ruled.rules.sex && !is_sex_listed(case.sex))
        || is_amount_or_date_out_of_range(case)
}

impl RuledCase<'_> {
    // Beside `check_form`, since reading tests the lines in the block, before there is a case with lines.
    /// Refusals 3, 4 and 5 as `check_form` gives them, where it is known already what the lines break: those of the case are not
    /// looked at.
    pub fn check_form_by(&self, unnamed: bool, lines: Faults) -> Result<(), Refusal>
        ensures verdict { result ≡ first (form.form_tests_by (form.kind_fault self.now.case.now.kind self.now.case.now.count) (unnamed || (form.head_reserved_fault self.now.case.now || lines.reserved)) (form.head_range_fault self.now.case.now || lines.range)) }
        ensures number { verdict_number result ≡ verdict_number (first (form.form_tests_by (form.kind_fault self.now.case.now.kind self.now.case.now.count) (unnamed || (form.head_reserved_fault self.now.case.now || lines.reserved)) (form.head_range_fault self.now.case.now || lines.range))) }
    {
        refuse_if(kind_fault(self), Refusal::Kind)?;
        refuse_if(
            unnamed || head_reserved_fault(self) || lines.reserved,
            Refusal::Reserved,
        )?;
        refuse_if(head_range_fault(self) || lines.range, Refusal::Range)
    }
}

/// Refusals 3, 4 and 5 of a case, read or built by hand: the first that applies. `unnamed` says whether its block has a byte other than
/// zero that no field names, which is refusal 4.
#[tactic(auto, unfolding(crate::specs::Form::reserved_fault, crate::specs::Form::range_fault))]
pub fn check_form(case: &Case, unnamed: bool) -> Result<(), Refusal>
    ensures verdict { result ≡ first (form.form_tests unnamed case.now) }
    ensures number { verdict_number result ≡ verdict_number (first (form.form_tests unnamed case.now)) }
{
    let ruled = RuledCase::new(case);
    ruled.check_form_by(unnamed, ruled.faults_of_lines())
}
