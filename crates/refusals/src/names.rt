// The refusals by number and name.
ghost use Rattle.std.specs.Prelude.{◌≡◌, ◌++◌, codes, Some};
ghost use Rattle.std.specs.Fmt.{decimal};
ghost use Rattle.refusals.specs.Refusals.{number_of, name_of};

use crate::Refusal;
use std::fmt;

impl Refusal {
    /// The number by which a report and the C library name it.
    pub fn number(self) -> u32
        ensures { result ≡ number_of self }
    {
        match self {
            Refusal::Length => 1,
            Refusal::Check => 2,
            Refusal::Kind => 3,
            Refusal::Reserved => 4,
            Refusal::Range => 5,
            Refusal::Dates => 6,
            Refusal::Status => 7,
            Refusal::Receiver => 8,
            Refusal::Service => 9,
            Refusal::Refer => 10,
            Refusal::Age => 11,
            Refusal::Factor => 12,
            Refusal::Debit => 13,
            Refusal::Negative => 14,
            Refusal::Buffer => 15,
            Refusal::Award => 16,
            Refusal::Order => 17,
        }
    }

    // A part of one text. Of a match with a text in each arm the compiler makes a table of addresses, in a section that can be written,
    // and the archive is to have none (tests/threads).
    /// Its name, of at most 16 ASCII letters.
    pub fn name(self) -> &'static str
        ensures { result.now ≡ name_of self }
    {
        let names =
            "lengthcheckkindreservedrangedatesstatusreceiverservicereferagefactordebitnegativebufferawardorder";
        let (start, end) = match self {
            Refusal::Length => (0, 6),
            Refusal::Check => (6, 11),
            Refusal::Kind => (11, 15),
            Refusal::Reserved => (15, 23),
            Refusal::Range => (23, 28),
            Refusal::Dates => (28, 33),
            Refusal::Status => (33, 39),
            Refusal::Receiver => (39, 47),
            Refusal::Service => (47, 54),
            Refusal::Refer => (54, 59),
            Refusal::Age => (59, 62),
            Refusal::Factor => (62, 68),
            Refusal::Debit => (68, 73),
            Refusal::Negative => (73, 81),
            Refusal::Buffer => (81, 87),
            Refusal::Award => (87, 92),
            Refusal::Order => (92, 97),
        };
        &names[start..end]
    }
}

impl fmt::Display for Refusal {
    ghost output = { λ refusal. Some (decimal (number_of refusal) ++ codes " " ++ name_of refusal) };

    fn fmt<W: fmt::Write>(&self, f: &mut fmt::Formatter<W>) -> fmt::Result {
        write!(f, "{} {}", self.number(), self.name())
    }
}
