// Steps 1 to 3 of the sum, the total of step 4, and the same of the divorce debit; nothing is rounded but revalued amounts.
ghost use Rattle.std.specs.Prelude.{◌≡◌, ◌+◌, ◌-◌, ◌*◌, ◌<◌, ◌≤◌, ◌^◌, ltb, cond, Some, None, IfSome};
ghost use Rattle.factors.specs.Rows.{Small, found};
ghost use Rattle.sums.specs.Sum.{revalued};
ghost use Rattle.valuing.specs.Totals.{LineInRange, debit_at, TotalsBy, TotalsBelow, Bounded, plus_totals, rest_of};

use crate::FormedCase;
use cases::{Line, rules_of};
use factors::Factors;
use refusals::Refusal;
use std::ops::Add;

// Items, deduction and divorce debit in hundredths of a penny, whether a row is absent, and whether Scheme Pays exceeds what it
// reduces. Neither is a Result: refusal 12 of any line comes before refusal 13 of any, so both are known only after the last line.
#[derive(Clone, Copy, Debug, Default, PartialEq, Eq)]
pub(crate) struct Totals {
    pub(crate) pension: u64,
    pub(crate) lump: u64,
    pub(crate) survivor: u64,
    pub(crate) deduction: u64,
    pub(crate) debit: u64,
    pub(crate) absent: bool,
    pub(crate) excess: bool,
}

// A revaluation factor of 1, in ten-thousandths.
const ONE: u64 = 10_000;

const HALF: u64 = ONE / 2;

// A revalued amount, in pence.
#[derive(Clone, Copy, Debug)]
struct Revalued {
    pence: u64,
    ghost in_range: { pence ≤ 20000000000 },
}

impl Revalued {
    // Times a factor in hundredths.
    fn times(self, factor: u64) -> u64
        requires { factor ≤ 9999 }
        ensures { (result ≡ self.pence * factor) × (result ≤ 200000000000000) }
    {
        self.pence * factor
    }

    // A benefit's part of the item, or none where Scheme Pays exceeds the benefit.
    fn item(self, scheme_pays: u64, factor: u64) -> Option<u64>
        requires { factor ≤ 9999 }
        ensures item { result ≡ cond (ltb self.pence scheme_pays) None (Some ((self.pence - scheme_pays) * factor)) }
        ensures bound { IfSome result (λ item. item ≤ 200000000000000) }
    {
        let pence = self.pence.checked_sub(scheme_pays)?;
        Some(Revalued { pence }.times(factor))
    }
}

// A revaluation factor, in ten-thousandths.
#[derive(Clone, Copy, Debug)]
struct Revaluation {
    factor: u32,
    ghost in_range: { factor ≤ 100000 },
}

impl Revaluation {
    // Pence times the factor, to the penny. Amounts in range leave room to add the half, so there is no need to look at what is over.
    fn revalue(self, pence: u64) -> Revalued
        requires { pence ≤ 2000000000 }
        ensures { result.pence ≡ revalued self.factor pence }
    {
        Revalued {
            pence: (pence * u64::from(self.factor) + HALF) / ONE,
        }
    }
}

// A line beside its row, if there is one, and the revaluation factor of its case.
#[derive(Clone, Copy, Debug)]
struct ValuedLine<'a> {
    line: &'a Line,
    row: Option<Factors>,
    revaluation: Revaluation,
    ghost in_range: { LineInRange line.now },
    ghost small: { Small (found row) },
}

impl ValuedLine<'_> {
    // The factors of the row, or zeros where there is none.
    fn factors(&self) -> Factors
        ensures { result ≡ found self.now.row }
    {
        self.row.unwrap_or_default()
    }

    // What the divorce debit comes to.
    fn debit(&self) -> u64
        ensures { (result ≡ debit_at self.now.revaluation.factor (found self.now.row) self.now.line.now) × (result ≤ 600000000000000) }
    {
        let line = self.line;
        let revaluation = self.revaluation;
        let factors = self.factors();
        let pension = revaluation.revalue(line.debit_pension);
        let lump = revaluation.revalue(line.debit_lump);
        let survivor = revaluation.revalue(line.debit_survivor);
        pension.times(factors.pension) + lump.times(factors.lump) + survivor.times(factors.survivor)
    }

    // The same, worked out only where there is one: few members have one.
    #[tactic(auto, using(sums::proofs::Divorce::revalued_none))]
    fn debit_if_any(&self) -> u64
        ensures { (result ≡ debit_at self.now.revaluation.factor (found self.now.row) self.now.line.now) × (result ≤ 600000000000000) }
    {
        let line = self.line;
        if line.debit_pension == 0 && line.debit_lump == 0 && line.debit_survivor == 0 {
            return 0;
        }
        self.debit()
    }

    fn totals(&self) -> Totals
        ensures { TotalsBy self.now.row self.now.revaluation.factor self.now.line.now result }
    {
        let line = self.line;
        let revaluation = self.revaluation;
        let factors = self.factors();
        let pension = revaluation
            .revalue(line.pension + line.additional)
            .item(line.scheme_pays, factors.pension);
        let lump = revaluation
            .revalue(line.lump)
            .item(line.scheme_pays_lump, factors.lump);
        let survivor = revaluation.revalue(line.survivor + line.dependant);
        Totals {
            pension: pension.unwrap_or(0),
            lump: lump.unwrap_or(0),
            survivor: survivor.times(factors.survivor),
            deduction: line.modification * factors.deduction,
            debit: self.debit_if_any(),
            absent: self.row.is_none(),
            excess: pension.is_none() || lump.is_none(),
        }
    }
}

impl Add for Totals {
    type Output = Totals;

    ghost can_add = { λ totals line. Bounded 600000000000000 totals × Bounded 200000000000000 line };

    ghost add_gives = { λ totals line sum. sum ≡ plus_totals totals line };

    fn add(self, line: Totals) -> Totals {
        Totals {
            pension: self.pension + line.pension,
            lump: self.lump + line.lump,
            survivor: self.survivor + line.survivor,
            deduction: self.deduction + line.deduction,
            debit: self.debit + line.debit,
            absent: self.absent || line.absent,
            excess: self.excess || line.excess,
        }
    }
}

// A formed case beside its totals over all lines.
#[derive(Clone, Copy, Debug)]
pub(crate) struct TotalledCase<'a> {
    pub(crate) formed: FormedCase<'a>,
    pub(crate) totals: Totals,
    ghost totalled: { TotalsBelow formed.case.now 4 totals },
}

impl<'a> TotalledCase<'a> {
    // The case beside its totals; the lines past the count add nothing to them.
    #[tactic(auto, using(factors::proofs::Tables::small_row, crate::proofs::Ranges::formed_in_range), unfolding(numbers::specs::Below::sum_below, numbers::specs::Below::any_below))]
    pub(crate) fn new(formed: FormedCase<'a>) -> TotalledCase<'a>
        ensures { result.formed.case ≡ formed.entry.case }
    {
        let case = formed.case;
        let table = rules_of(case.kind).table;
        let age = calendar::age(case.birth, case.guarantee);
        let revaluation = Revaluation {
            factor: case.revaluation,
        };
        let mut totals = Totals::default();
        for line in case.counted_lines() {
            let row = table.row(age, calendar::years_ahead(case.guarantee, line.date));
            let line = ValuedLine {
                line,
                row,
                revaluation,
            };
            let of_line = line.totals();
            totals = totals + of_line;
        }
        TotalledCase { formed, totals }
    }
}

// What is left of what is added when the deduction is taken off, by the signed difference in 64 bits that 01 names: refusal 14
// where that is below zero. Both are below 2 ^ 62, so `as` loses nothing.
pub(crate) fn left_of(added: u64, deduction: u64) -> Result<u64, Refusal>
    requires { (added < 2 ^ 62) × (deduction < 2 ^ 62) }
    ensures { result ≡ rest_of added deduction }
{
    let total = added as i64 - deduction as i64;
    u64::try_from(total).map_err(|_| Refusal::Negative)
}
