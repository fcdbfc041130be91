// What sets the kinds of case apart: one row to a kind.
ghost use Rattle.std.specs.Prelude.{◌≡◌};
ghost use Rattle.cases.specs.Kinds.{rules_of};

use crate::Rules;
use factors::Table;

// A function of the number and no `From`: a number may be anything else too.
/// The rules of a kind, by its number; of a kind that is not listed, rules that allow no line.
#[tactic(auto, using(crate::proofs::RowsOfKinds::no_row), unfolding(crate::specs::Kinds::rules_of))]
pub fn rules_of(kind: u16) -> Rules
    ensures { result ≡ rules_of kind }
{
    match kind {
        1 => Rules {
            lines: 1,
            dated: false,
            transfers: false,
            lump: true,
            choice_optants: false,
            modification: true,
            sex: false,
            pension_age: 60,
            table: Table::Section1995,
        },
        2 => Rules {
            lines: 4,
            dated: true,
            transfers: true,
            lump: false,
            choice_optants: false,
            modification: false,
            sex: false,
            pension_age: 0,
            table: Table::Scheme2015,
        },
        3 => Rules {
            lines: 1,
            dated: false,
            transfers: false,
            lump: false,
            choice_optants: true,
            modification: true,
            sex: true,
            pension_age: 65,
            table: Table::Section2008,
        },
        // Rules of no kind and no `Option`: any number has an answer, as it had, and seven tests go by rules without taking one apart.
        _ => Rules {
            lines: 0,
            dated: false,
            transfers: false,
            lump: false,
            choice_optants: false,
            modification: false,
            sex: false,
            pension_age: 0,
            table: Table::NoTable,
        },
    }
}
