// Real days of the calendar.
ghost use Rattle.std.specs.Prelude.{◌≡◌};
ghost use Rattle.calendar.specs.Dates as dates;

use crate::Date;

pub(crate) fn is_leap(year: u16) -> bool
    ensures { result ≡ dates.is_leap year }
{
    year % 400 == 0 || (year % 100 != 0 && year % 4 == 0)
}

// The days of a month; 0 where there is no such month. The leap day is added, so that the match is a table of constants.
#[tactic(auto, unfolding(crate::specs::Dates::days_in))]
fn days_in(year: u16, month: u8) -> u8
    ensures { result ≡ dates.days_in year month }
{
    let leap_days = u8::from(month == 2 && is_leap(year));
    let in_common_year = match month {
        2 => 28,
        4 | 6 | 9 | 11 => 30,
        1..=12 => 31,
        _ => 0,
    };
    in_common_year + leap_days
}

impl Date {
    /// Whether this is a real day of the years 1900 to 2199, by the Gregorian calendar.
    #[tactic(auto, unfolding(crate::specs::Dates::is_real))]
    pub fn is_real(self) -> bool
        ensures { result ≡ dates.is_real self }
    {
        (1900..=2199).contains(&self.year)
            && (1..=days_in(self.year, self.month)).contains(&self.day)
    }

    /// Whether year, month and day are all zero.
    pub fn is_zero(self) -> bool
        ensures { result ≡ dates.is_zero self }
    {
        self == Date::default()
    }
}
