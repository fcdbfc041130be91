// The bits of some amounts taken together: where they make no number above the limit, no amount is above it. That is one test
// instead of one to an amount.
ghost use Rattle.std.specs.Prelude.{◌≡◌};
ghost use Rattle.cases.specs.Bits.{all_bits};

// Every bit that is set in one of some amounts.
pub(crate) fn all_bits(amounts: &[u64]) -> u64
    ensures { result ≡ all_bits amounts.now }
{
    amounts.iter().fold(0, |bits, &amount| bits | amount)
}
