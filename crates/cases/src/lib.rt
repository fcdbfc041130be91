// The case of a member who leaves: its entries, the rules of its kind, and refusals 3 to 5.
#![tactic(auto)]

mod bits;
mod flags;
mod form;
mod kinds;
mod lines;
mod ruled;

use calendar::Date;
use factors::Table;
pub use flags::{gmp_flag, transfer_flag};
pub use form::check_form;
pub use kinds::rules_of;
pub use ruled::RuledCase;

/// One line of benefits: its pension date and its amounts in pence. The two amounts of Scheme Pays are debits, on the pension and on
/// the lump sum; the last three are a divorce debit, as at leaving.
#[derive(Clone, Copy, Debug, Default, PartialEq, Eq)]
pub struct Line {
    pub date: Date,
    pub pension: u64,
    pub additional: u64,
    pub survivor: u64,
    pub dependant: u64,
    pub lump: u64,
    pub modification: u64,
    pub scheme_pays: u64,
    pub scheme_pays_lump: u64,
    pub debit_pension: u64,
    pub debit_survivor: u64,
    pub debit_lump: u64,
}

// Codes are numbers, not enums: the comparison of two cases goes over entries as numbers, and each code that is not listed has a
// refusal. The lines are all four of a block beside their count, not a slice of as many: those past the count have refusals too.
/// The fields of a block but its check (01, 'The case block'). A case may be built by hand: nothing is known of its entries.
#[derive(Clone, Copy, Debug, PartialEq, Eq)]
pub struct Case {
    /// 1 for the 1995 section, 2 for the 2015 scheme, 3 for the 2008 section.
    pub kind: u16,
    /// The case number.
    pub number: u32,
    /// 1 deferred, 2 active, 3 pensioner, 4 pension credit.
    pub status: u8,
    /// The receiving scheme: 1 defined benefit, 2 defined contribution, 3 overseas.
    pub receiver: u8,
    /// 1 for a transfer in, 2 for a guaranteed minimum pension, 4 for a Choice Optant, summed.
    pub flags: u8,
    /// How many of the lines count.
    pub count: u8,
    /// Qualifying service in complete months.
    pub service: u16,
    /// 1 male, 2 female.
    pub sex: u8,
    pub birth: Date,
    pub leaving: Date,
    /// The guarantee date.
    pub guarantee: Date,
    /// State pension date.
    pub state_pension: Date,
    /// The revaluation factor in ten-thousandths.
    pub revaluation: u32,
    /// The voluntary fund in pence.
    pub avc: u64,
    /// The transfer-in payment in pence.
    pub transfer: u64,
    /// Own contributions in pence.
    pub contributions: u64,
    pub lines: [Line; 4],
}

// `dated` and `pension_age` are two, and no `Option` of an age: five tests ask whether lines are dated, and one the age.
/// What sets a kind of case apart.
#[derive(Clone, Copy, Debug, PartialEq, Eq)]
pub struct Rules {
    /// The most lines that a case may have; it has at least one.
    pub lines: u8,
    /// Whether each line is dated at its own pension age.
    pub dated: bool,
    /// Whether there may be a transfer in, and own contributions.
    pub transfers: bool,
    /// Whether every member may have a lump sum, and debits on it.
    pub lump: bool,
    /// Whether there are Choice Optants: they alone may have a lump sum, and debits on it, where not every member may.
    pub choice_optants: bool,
    /// Whether there may be a modification.
    pub modification: bool,
    /// Whether the sex is entered.
    pub sex: bool,
    /// The pension age in years where the lines are not dated.
    pub pension_age: u16,
    /// The notes' table that holds its factors.
    pub table: Table,
}

/// Whether lines break a must-be-zero rule, and whether they break a range.
#[derive(Clone, Copy, Debug, Default, PartialEq, Eq)]
pub struct Faults {
    pub reserved: bool,
    pub range: bool,
}
