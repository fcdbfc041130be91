// Dates: real days, their order, moving on by years, age and years ahead.
#![tactic(auto)]

mod conversion;
mod day;
mod moving;

pub use moving::{age, before_birthday, years_ahead};

/// A date by its numbers, which need not be a real day. Dates are in the order of year, then month, then day.
#[derive(Clone, Copy, Debug, Default, PartialEq, Eq, PartialOrd, Ord, Hash)]
pub struct Date {
    pub year: u16,
    pub month: u8,
    pub day: u8,
}
