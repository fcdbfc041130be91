// The answer to a case. The code that works it out is in `valuing`.
#![tactic(auto)]

mod conversion;

ghost use Rattle.std.specs.Prelude.{◌≡◌};
ghost use Rattle.std.specs.Option.{unwrap_or};
ghost use Rattle.answers.specs.Answer.{payment_of, paid};

use refusals::Refusal;

/// The payment and its items: payment, underpin and AVC in pence, the others in hundredths of a penny, over all lines.
#[derive(Clone, Copy, Debug, PartialEq, Eq)]
pub struct Items {
    pub payment: u64,
    pub pension: u64,
    pub lump: u64,
    pub survivor: u64,
    pub deduction: u64,
    pub underpin: u64,
    pub avc: u64,
}

/// What is paid for a case, item by item, or why nothing is. An enum of its own, as 01 names it: a refusal is an answer too.
#[derive(Clone, Copy, Debug, PartialEq, Eq)]
pub enum Outcome {
    Paid(Items),
    Refused(Refusal),
}

impl Outcome {
    /// What is paid, in pence, if anything is.
    pub fn payment(&self) -> Option<u64>
        ensures answer { result ≡ payment_of self.now }
        ensures number { unwrap_or result 0 ≡ paid self.now }
    {
        match self {
            Outcome::Paid(items) => Some(items.payment),
            Outcome::Refused(_) => None,
        }
    }
}

/// An outcome beside the case number, which is 0 where the block could not be read: as 01 has it, since a line is formed of both.
#[derive(Clone, Copy, Debug, PartialEq, Eq)]
pub struct Answer {
    pub number: u32,
    pub outcome: Outcome,
}
