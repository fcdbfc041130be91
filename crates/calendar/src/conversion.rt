// A date out of its bytes.
ghost use Rattle.std.specs.Prelude.{◌≡◌};
ghost use Rattle.calendar.specs.Dates.{date_of_bytes};

use crate::Date;

/// The date that four bytes of a block hold: its year, low byte first, then month and day.
impl From<[u8; 4]> for Date {
    ghost from_gives = { λ bytes date. date ≡ date_of_bytes bytes };

    fn from(bytes: [u8; 4]) -> Date {
        let [year_low, year_high, month, day] = bytes;
        Date {
            year: u16::from_le_bytes([year_low, year_high]),
            month,
            day,
        }
    }
}
