// The digits of numbers, also of one with a point, stored over all of the part of a buffer that is lent. `as` loses nothing here:
// what it is used on is proved to be below 100.
ghost use Rattle.std.specs.Prelude.{◌≡◌, ◌+◌, ◌-◌, ◌^◌, ◌≤◌, ◌<◌, length};
ghost use Rattle.buffers.specs.Decimal.{last_digits, decimal, fixed_point};

// The two digits of each number below 100, in ASCII.
static PAIRS: [u8; 200] =
    *b"0001020304050607080910111213141516171819202122232425262728293031323334353637383940414243444546474849\
    5051525354555657585960616263646566676869707172737475767778798081828384858687888990919293949596979899";

#[tactic(auto, using(crate::proofs::Pairs::pair_at))]
fn two_digits(n: u64) -> [u8; 2]
    requires small { n < 100 }
    ensures { result ≡ last_digits 2 n }
{
    let at = 2 * n as usize;
    [PAIRS[at], PAIRS[at + 1]]
}

// Two at a time: with digits made one by one an array of the four took 5 in a hundred more of the 1,929 instructions for a block.
#[tactic(auto, using(crate::proofs::Decimal::four_of_two))]
fn fill_four_digits(out: &mut [u8], n: u64)
    requires small { n < 10000 }
    requires room { length out.old ≡ 4 }
    ensures { out.new ≡ last_digits 4 n }
{
    let (front, back) = out.split_at_mut(2);
    front.copy_from_slice(&two_digits(n / 100));
    back.copy_from_slice(&two_digits(n % 100));
}

// The last of the digits are stored first. By index: no proof knows what was written through `iter_mut().rev()`.
#[tactic(auto, using(crate::proofs::Decimal::put_digit, crate::proofs::Decimal::put_no_digit))]
fn fill_digits(out: &mut [u8], n: u64)
    ensures { out.new ≡ last_digits (length out.old) n }
{
    let mut rest = n;
    for i in (0..out.len()).rev() {
        out[i] = b'0' + (rest % 10) as u8;
        rest /= 10;
    }
}

#[tactic(auto, using(crate::proofs::Decimal::up_to_two_digits))]
fn fill_up_to_two_digits(out: &mut [u8], n: u64)
    requires small { n < 100 }
    requires room { length out.old ≡ length (decimal n) }
    ensures { out.new ≡ decimal n }
{
    if n < 10 {
        out[0] = b'0' + n as u8;
    } else {
        out[..2].copy_from_slice(&two_digits(n));
    }
}

// How many decimal digits n has: comparing takes less time than dividing, and most numbers have six or fewer.
fn count_digits(n: u64) -> usize
    ensures some { 1 ≤ result }
    ensures enough { n < 10 ^ result }
    ensures fewest { 1 < result → 10 ^ (result - 1) ≤ n }
    ensures bound { result ≤ 20 }
{
    match n {
        0..=9 => 1,
        10..=99 => 2,
        100..=999 => 3,
        1000..=9999 => 4,
        10_000..=99_999 => 5,
        100_000..=999_999 => 6,
        1_000_000..=9_999_999 => 7,
        10_000_000..=99_999_999 => 8,
        100_000_000..=999_999_999 => 9,
        1_000_000_000..=9_999_999_999 => 10,
        10_000_000_000..=99_999_999_999 => 11,
        100_000_000_000..=999_999_999_999 => 12,
        1_000_000_000_000..=9_999_999_999_999 => 13,
        10_000_000_000_000..=99_999_999_999_999 => 14,
        100_000_000_000_000..=999_999_999_999_999 => 15,
        1_000_000_000_000_000..=9_999_999_999_999_999 => 16,
        10_000_000_000_000_000..=99_999_999_999_999_999 => 17,
        100_000_000_000_000_000..=999_999_999_999_999_999 => 18,
        1_000_000_000_000_000_000..=9_999_999_999_999_999_999 => 19,
        _ => 20,
    }
}

// A number and how many decimal digits it has.
#[derive(Clone, Copy, Debug, PartialEq, Eq)]
pub(crate) struct Decimal {
    number: u64,
    pub(crate) digits: usize,
    ghost counted: { digits ≡ length (decimal number) },
    ghost few: { digits ≤ 20 },
}

impl Decimal {
    #[tactic(auto, using(crate::proofs::Decimal::decimal_counted))]
    pub(crate) fn new(number: u64) -> Decimal
        ensures { result.number ≡ number }
    {
        Decimal {
            number,
            digits: count_digits(number),
        }
    }

    // The last of the digits are stored first, four to a division, until four or fewer are left. The loop goes by what is left of
    // the number: for a `for` the turns would have to be counted from the digits first.
    #[tactic(auto, using(crate::proofs::Decimal::in_fours_and_twos))]
    pub(crate) fn fill(self, out: &mut [u8])
        requires { length out.old ≡ self.digits }
        ensures { out.new ≡ decimal self.number }
    {
        let mut end = self.digits;
        let mut rest = self.number;
        while 9999 < rest {
            end -= 4;
            fill_four_digits(&mut out[end..end + 4], rest % 10_000);
            rest /= 10_000;
        }
        if 99 < rest {
            end -= 2;
            out[end..end + 2].copy_from_slice(&two_digits(rest % 100));
            rest /= 100;
        }
        fill_up_to_two_digits(&mut out[..end], rest);
    }
}

// The last digits of n. Two and four are common: with the loop alone a block took 4 in a hundred more of its 1,929 instructions.
#[tactic(auto, using(crate::proofs::Decimal::last_two, crate::proofs::Decimal::last_four))]
fn fill_after_point(out: &mut [u8], n: u64)
    ensures { out.new ≡ last_digits (length out.old) n }
{
    match out.len() {
        2 => out.copy_from_slice(&two_digits(n % 100)),
        4 => fill_four_digits(out, n % 10_000),
        _ => fill_digits(out, n),
    }
}

// Inlined, as the method is that calls it.
#[tactic(auto, using(crate::proofs::Decimal::over_fixed))]
#[inline(always)]
pub(crate) fn fill_fixed_point(out: &mut [u8], whole: Decimal, n: u64)
    requires { whole.digits < length out.old }
    ensures { out.new ≡ fixed_point whole.number (length out.old - (whole.digits + 1)) n }
{
    whole.fill(&mut out[..whole.digits]);
    out[whole.digits] = b'.';
    fill_after_point(&mut out[whole.digits + 1..], n);
}
