// Moving a date on by years, and what is counted by it: birthdays, age and years ahead. These are no methods: of two dates neither is
// the one that is asked.
ghost use Rattle.std.specs.Prelude.{◌≡◌};
ghost use Rattle.calendar.specs.Dates as dates;
ghost use Rattle.calendar.specs.Moving as moving;

use crate::Date;
use crate::day::is_leap;

impl Date {
    // The date in another year: month and day stay, but 29 February is 28 February in a common year.
    #[tactic(auto, unfolding(crate::specs::Moving::in_year))]
    fn in_year(self, year: u16) -> Date
        ensures { result ≡ moving.in_year year self }
    {
        if self.month == 2 && self.day == 29 && !is_leap(year) {
            Date {
                year,
                day: 28,
                ..self
            }
        } else {
            Date { year, ..self }
        }
    }
}

/// Whether `on` stands before the birthday on which one born on `birth` reaches the age of `years`. Here and below one born on
/// 29 February has a birthday on 28 February in a common year.
#[tactic(auto, using(crate::proofs::Order::earlier_year, crate::proofs::Moved::year_is))]
pub fn before_birthday(on: Date, birth: Date, years: u16) -> bool
    ensures { result ≡ dates.before on (moving.moved_on years birth) }
{
    match birth.year.checked_add(years) {
        Some(year) => on < birth.in_year(year),
        // a year past every date
        None => true,
    }
}

/// The age in years: the number of birthdays that one born on `birth` has reached by the day `on`, that day included.
#[tactic(auto, using(crate::proofs::Ages::age_is))]
pub fn age(birth: Date, on: Date) -> u16
    ensures { result ≡ moving.age birth on }
{
    let years = on.year.saturating_sub(birth.year);
    years.saturating_sub(u16::from(on < birth.in_year(on.year)))
}

/// The fewest years after which `from`, moved on by them, no longer stands before `to`.
#[tactic(auto, using(crate::proofs::YearsAhead::ahead_is))]
pub fn years_ahead(from: Date, to: Date) -> u32
    ensures { result ≡ moving.years_ahead from to }
{
    let years = u32::from(to.year.saturating_sub(from.year));
    years + u32::from(from.year <= to.year && from.in_year(to.year) < to)
}
