// What refusals 4 and 5 ask of the lines of a case.
ghost use Rattle.std.specs.Prelude.{map, length, take, ◌≡◌, ◌||◌};
ghost use Rattle.numbers.specs.Lists.{any};
ghost use Rattle.cases.specs.Layout.{amounts};
ghost use Rattle.cases.specs.Entries.{amount_in};
ghost use Rattle.cases.specs.Form.{filled, too_large, line_filled, lump_allowed, reserved_filled, line_faults, lines_faults, either};

use crate::bits::all_bits;
use crate::flags::choice_optant_flag;
use crate::{Case, Faults, Line, RuledCase, Rules};
use std::ops::BitOr;

// The most pence that an amount may have.
const LIMIT: u64 = 1_000_000_000;

pub(crate) fn too_large(pence: u64) -> bool
    ensures { result ≡ too_large pence }
{
    LIMIT < pence
}

fn any_filled(amounts: &[u64]) -> bool
    ensures { result ≡ any filled amounts.now }
{
    amounts.iter().any(|&pence| pence != 0)
}

#[tactic(auto, using(crate::proofs::AllBits::none_too_large))]
fn any_too_large(amounts: &[u64]) -> bool
    ensures { result ≡ any too_large amounts.now }
{
    LIMIT < all_bits(amounts) && amounts.iter().any(|&pence| too_large(pence))
}

/// What one or the other breaks.
impl BitOr for Faults {
    type Output = Faults;

    ghost bitor_gives = { λ faults others both. both ≡ either faults others };

    fn bitor(self, other: Faults) -> Faults {
        Faults {
            reserved: self.reserved || other.reserved,
            range: self.range || other.range,
        }
    }
}

impl Line {
    // The amounts, in block order. The sum names them, and what is asked of all of them goes over this list.
    fn amounts(&self) -> [u64; 11]
        ensures { result ≡ map (λ a. amount_in a self.now) amounts }
    {
        [
            self.pension,
            self.additional,
            self.survivor,
            self.dependant,
            self.lump,
            self.modification,
            self.scheme_pays,
            self.scheme_pays_lump,
            self.debit_pension,
            self.debit_survivor,
            self.debit_lump,
        ]
    }

    fn has_amount_too_large(&self) -> bool
        ensures { result ≡ any (λ a. too_large (amount_in a self.now)) amounts }
    {
        any_too_large(&self.amounts())
    }

    // Whether its date or an amount is not zero.
    #[tactic(auto, unfolding(crate::specs::Form::line_filled))]
    fn is_filled(&self) -> bool
        ensures { result ≡ line_filled self.now }
    {
        !self.date.is_zero() || any_filled(&self.amounts())
    }
}

impl Rules {
    // Whether the member may have a lump sum.
    fn is_lump_allowed(&self, flags: u8) -> bool
        ensures { result ≡ lump_allowed self.now flags }
    {
        self.lump || (self.choice_optants && choice_optant_flag(flags))
    }

    // Whether something that must be zero in a line by its kind, flags and place, from 0, is not.
    #[tactic(auto, unfolding(crate::specs::Form::reserved_filled))]
    fn is_reserved_filled(&self, flags: u8, place: usize, line: &Line) -> bool
        ensures { result ≡ reserved_filled self.now flags place line.now }
    {
        (!self.dated && !line.date.is_zero())
            || (!self.is_lump_allowed(flags)
                && (line.lump != 0 || line.scheme_pays_lump != 0 || line.debit_lump != 0))
            || (!self.modification && line.modification != 0)
            || (1 <= place && (line.additional != 0 || line.dependant != 0))
    }

    /// What a line at a place, from 0, breaks in a case of these rules with these flags and this count. Past the count nearly every line
    /// is zeros and breaks nothing, so it is not tested further. Flags and count, and not a `RuledCase`: any rules are answered for.
    #[tactic(auto, using(crate::proofs::PastCount::range_within, crate::proofs::PastCount::range_past), unfolding(crate::specs::Form::line_reserved_fault))]
    pub fn faults_of_line(&self, flags: u8, count: u8, place: usize, line: &Line) -> Faults
        ensures { result ≡ line_faults self.now flags count place line.now }
    {
        if place < usize::from(count) {
            return Faults {
                reserved: self.is_reserved_filled(flags, place, line),
                range: line.has_amount_too_large() || (self.dated && !line.date.is_real()),
            };
        }
        let filled = line.is_filled();
        Faults {
            reserved: filled,
            range: filled && line.has_amount_too_large(),
        }
    }
}

impl Case {
    /// The lines within the count, which in a case built by hand may be more than there are: then all of them.
    pub fn counted_lines(&self) -> &[Line]
        ensures counted { result.now ≡ take self.now.count self.now.lines }
        ensures four { length self.now.lines ≡ 4 }
    {
        &self.lines[..usize::from(self.count).min(4)]
    }
}

impl RuledCase<'_> {
    /// What a line at a place, from 0, breaks in a case of this kind with these flags and this count.
    pub fn faults_of_line(&self, place: usize, line: &Line) -> Faults
        ensures { let c = self.now.case.now in
            result ≡ line_faults self.now.rules c.flags c.count place line.now }
    {
        let RuledCase { case, rules, .. } = self;
        rules.faults_of_line(case.flags, case.count, place, line)
    }

    // What the lines of the case break.
    pub(crate) fn faults_of_lines(&self) -> Faults
        ensures { result ≡ lines_faults self.now.case.now self.now.case.now }
    {
        let mut faults = Faults::default();
        for (place, line) in self.case.lines.iter().enumerate() {
            faults = faults | self.faults_of_line(place, line);
        }
        faults
    }
}
