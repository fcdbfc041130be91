// From the totals to the payment: refusals 14 and 16, the first value, the debit value, steps 5 and 6 of the sum, and the items.
ghost use Rattle.std.specs.Prelude.{◌≡◌, ◌≤◌, ◌<◌, ◌^◌, Ok, IfOk};
ghost use Rattle.sums.specs.Rows.{factors_of};
ghost use Rattle.sums.specs.Sum as of_case;
ghost use Rattle.sums.specs.Payment as payment;
ghost use Rattle.answers.specs.Answer.{gross_of, items_of};
ghost use Rattle.valuing.specs.Totals.{unless_negative, unless_award};

use crate::FormedCase;
use crate::sum::{TotalledCase, left_of};
use answers::Items;
use cases::transfer_flag;
use refusals::Refusal;

impl FormedCase<'_> {
    #[tactic(auto, using(crate::proofs::Ranges::formed_in_range), unfolding(sums::specs::Payment::underpin))]
    fn underpin(&self) -> u64
        ensures sum { result ≡ payment.underpin self.now.case.now }
        ensures bound { result ≤ 2000000000 }
    {
        let case = self.case;
        if transfer_flag(case.flags) {
            case.transfer + case.contributions
        } else {
            0
        }
    }

    // What is paid of a gross value.
    #[tactic(auto, unfolding(sums::specs::Payment::payment), using(crate::proofs::Ranges::formed_in_range))]
    fn payment(&self, gross: u64) -> u64
        requires { gross < 2 ^ 62 }
        ensures { result ≡ payment.payment self.now.case.now gross }
    {
        gross.max(self.underpin()) + self.case.avc
    }
}

impl TotalledCase<'_> {
    // The first value: the total rounded to whole pence, or refusal 14 where it is below zero.
    #[tactic(auto, using(crate::proofs::Settled::below_zero_lem, crate::proofs::Settled::left_over))]
    fn first_value(&self) -> Result<u64, Refusal>
        ensures value { let c = self.now.formed.case.now in result ≡ unless_negative c (Ok (of_case.first_value (factors_of c) c)) }
        ensures bound { IfOk result (λ value. value < 2 ^ 62) }
    {
        let totals = &self.totals;
        let added = totals.pension + totals.lump + totals.survivor;
        let total = left_of(added, totals.deduction)?;
        Ok(numbers::nearest(total, 100))
    }

    // The gross value: what the divorce debit leaves of the first value, or refusal 16 where the debit value is above it.
    #[tactic(auto, using(crate::proofs::Settled::debit_is), unfolding(sums::specs::Sum::award_fault, sums::specs::Sum::gross_by, answers::specs::Answer::gross_of))]
    fn gross_value(&self) -> Result<u64, Refusal>
        ensures value { let c = self.now.formed.case.now in result ≡ unless_negative c (unless_award c (Ok (gross_of c))) }
        ensures bound { IfOk result (λ value. value < 2 ^ 62) }
    {
        let first_value = self.first_value()?;
        let debit_value = numbers::nearest(self.totals.debit, 100);
        first_value.checked_sub(debit_value).ok_or(Refusal::Award)
    }

    // The payment with its items, or refusal 14 or 16.
    #[tactic(auto, using(crate::proofs::Ranges::formed_in_range))]
    pub(crate) fn items(&self) -> Result<Items, Refusal>
        ensures { let c = self.now.formed.case.now in result ≡ unless_negative c (unless_award c (Ok (items_of c))) }
    {
        let gross = self.gross_value()?;
        let formed = &self.formed;
        let totals = &self.totals;
        Ok(Items {
            payment: formed.payment(gross),
            pension: totals.pension,
            lump: totals.lump,
            survivor: totals.survivor,
            deduction: totals.deduction,
            underpin: formed.underpin(),
            avc: formed.case.avc,
        })
    }
}
