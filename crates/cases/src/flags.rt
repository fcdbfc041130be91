// What the flags say, a number of one byte. Functions of the number and no methods of `Case`: the rules of a line are asked with the
// flags, and without a case.
ghost use Rattle.std.specs.Prelude.{◌≡◌};
ghost use Rattle.cases.specs.Flags as flag;

const TRANSFER: u8 = 1;

const GMP: u8 = 2;

const CHOICE_OPTANT: u8 = 4;

// All the bits above those.
const UNUSED: u8 = 248;

/// Whether there is a transfer in.
#[tactic(auto, using(crate::proofs::FlagBits::transfer_bit))]
pub fn transfer_flag(flags: u8) -> bool
    ensures { result ≡ flag.transfer_flag flags }
{
    flags & TRANSFER != 0
}

/// Whether there is a guaranteed minimum pension.
#[tactic(auto, using(crate::proofs::FlagBits::gmp_bit))]
pub fn gmp_flag(flags: u8) -> bool
    ensures { result ≡ flag.gmp_flag flags }
{
    flags & GMP != 0
}

#[tactic(auto, using(crate::proofs::FlagBits::choice_optant_bit))]
pub(crate) fn choice_optant_flag(flags: u8) -> bool
    ensures { result ≡ flag.choice_optant_flag flags }
{
    flags & CHOICE_OPTANT != 0
}

// Whether a flag is set that has no meaning.
#[tactic(auto, using(crate::proofs::FlagBits::unused_bits))]
pub(crate) fn unused_flag(flags: u8) -> bool
    ensures { result ≡ flag.unused_flag flags }
{
    flags & UNUSED != 0
}
