// Refusals 6, 10, 11 and 17, which look at dates.
ghost use Rattle.std.specs.Prelude.{◌≡◌, not, drop};
ghost use Rattle.std.specs.List.{list_any, IsAllAdjacentAnswer};
ghost use Rattle.calendar.specs.Dates.{before};
ghost use Rattle.entitlement.specs.Entitlement as entitlement;

use calendar::{Date, before_birthday};
use cases::{Case, Line, RuledCase, gmp_flag};

// The age that line 1 may not be dated before.
const FIRST_AGE: u16 = 65;

// The first day of the new State pension.
const NEW_STATE_PENSION: Date = Date {
    year: 2016,
    month: 4,
    day: 6,
};

// Whether a line after the first is dated on a day or after it.
fn any_later_line_from(lines: &[Line], day: Date) -> bool
    ensures { result ≡ list_any (λ l. not (before l.date day)) (drop 1 lines.now) }
{
    lines.iter().skip(1).any(|line| day <= line.date)
}

// Whether a line is dated on a day or before it.
fn any_line_until(lines: &[Line], day: Date) -> bool
    ensures { result ≡ list_any (λ l. not (before day l.date)) lines.now }
{
    lines.iter().any(|line| line.date <= day)
}

// Whether each line after the second is dated before the one above it.
fn later_lines_fall(lines: &[Line]) -> bool
    ensures { IsAllAdjacentAnswer (λ above l b. b ≡ before l.date above.date) (drop 1 lines.now) result }
{
    let Some((_, later)) = lines.split_first() else {
        return true;
    };
    later.is_sorted_by(|above, line| line.date < above.date)
}

// What refusal 6 asks of dated lines.
#[tactic(auto, using(crate::proofs::Lines::any_misplaced), unfolding(cases::specs::Entries::line_by))]
fn dated_lines_fault(ruled: &RuledCase<'_>) -> bool
    ensures { result ≡ entitlement.dated_lines_fault ruled.now.case.now }
{
    let case = ruled.case;
    let first = case.lines[0].date;
    ruled.rules.dated
        && (before_birthday(first, case.birth, FIRST_AGE)
            || any_later_line_from(case.counted_lines(), first))
}

pub(crate) fn dates_fault(ruled: &RuledCase<'_>) -> bool
    ensures { result ≡ entitlement.dates_fault ruled.now.case.now }
{
    let case = ruled.case;
    case.leaving <= case.birth || case.guarantee < case.leaving || dated_lines_fault(ruled)
}

#[tactic(auto, using(crate::proofs::Lines::any_out_of_order))]
pub(crate) fn order_fault(ruled: &RuledCase<'_>) -> bool
    ensures { result ≡ entitlement.order_fault ruled.now.case.now }
{
    ruled.rules.dated && !later_lines_fall(ruled.case.counted_lines())
}

pub(crate) fn refer_fault(case: &Case) -> bool
    ensures { result ≡ entitlement.refer_fault case.now }
{
    gmp_flag(case.flags) && case.state_pension < NEW_STATE_PENSION
}

// Inlined: for a call the `RuledCase` would be laid out in memory.
#[tactic(auto, using(crate::proofs::Lines::any_reached))]
#[inline(always)]
pub(crate) fn age_fault(ruled: &RuledCase<'_>) -> bool
    ensures { result ≡ entitlement.age_fault ruled.now.case.now }
{
    let case = ruled.case;
    if ruled.rules.dated {
        any_line_until(case.counted_lines(), case.guarantee)
    } else {
        ruled.rules.pension_age <= calendar::age(case.birth, case.guarantee)
    }
}
