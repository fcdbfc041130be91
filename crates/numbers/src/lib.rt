// Rounding to the nearest whole number, halves up.
#![tactic(auto)]

ghost use Rattle.std.specs.Prelude.{◌≡◌};
ghost use Rattle.numbers.specs.Rounding as rounding;

/// `amount` divided by `unit`, to the nearest whole number, halves up; 0 where `unit` is 0.
#[tactic(auto, using(crate::proofs::Rounding::nearest_none, crate::proofs::Rounding::nearest_up, crate::proofs::Rounding::nearest_down))]
pub fn nearest(amount: u64, unit: u64) -> u64
    ensures { result ≡ rounding.nearest unit amount }
{
    // Every pair of numbers has an answer, so no caller needs to promise a unit.
    if unit == 0 {
        return 0;
    }
    let whole = amount / unit;
    let over = amount % unit;
    if unit - over <= over {
        whole + 1
    } else {
        whole
    }
}
