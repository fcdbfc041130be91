// The check of a block, a 32-bit word at a time. Words a stride apart are added from the last to the first, and before each one the
// sum so far is added to a second sum: so each word is counted as often as its row number says, and no word is multiplied. In a sum
// of words the sums of their bytes overlap; the sum of the bytes at odd positions, kept beside it, takes them apart at the end.
ghost use Rattle.std.specs.Prelude.{◌≡◌, ◌+◌, ◌-◌, ◌*◌, ◌/◌, ◌%◌, ◌≤◌};
ghost use Rattle.numbers.specs.Below.{sum_below};
ghost use Rattle.buffers.specs.Bytes.{number_at};
ghost use Rattle.blocks.specs.Block as block;
ghost use Rattle.blocks.specs.Words.{word_sum, odd_bytes, word_at, odd_at, SumsOf, prepend, halves, weighed};

use crate::CHECK;
use crate::column::Column;
use buffers::bytes_at;

// The bytes that the check is made of: 15 rows of eight words, and seven words.
type Checked = [u8; CHECK];

const ROWS: u16 = 15;

const ROW_SIZE: u16 = 32;

// Of some numbers: their sum, and the sum of each times its place, counted from 0; both modulo 2^32.
#[derive(Clone, Copy, Debug, Default, PartialEq, Eq)]
struct Sums {
    pub plain: u32,
    pub weighted: u32,
}

impl Sums {
    // The sums with one more number before the others, which move up a place.
    fn with_first(self, number: u32) -> Sums
        ensures { result ≡ prepend number self }
    {
        Sums {
            plain: self.plain.wrapping_add(number),
            weighted: self.weighted.wrapping_add(self.plain),
        }
    }
}

// The sums of some words, and those of their bytes at odd positions.
#[derive(Clone, Copy, Debug, Default, PartialEq, Eq)]
struct WordSums {
    pub words: Sums,
    pub odd: Sums,
}

fn word_at(b: &Checked, at: usize) -> u32
    ensures { result ≡ number_at 4 b.now at }
{
    u32::from_le_bytes(bytes_at(b, at))
}

// The bytes at the odd positions of a word, its second and its fourth, each in one half of a number.
fn odd_bytes(word: u32) -> u32
    ensures { result ≡ odd_bytes word }
{
    let [_, second, _, fourth] = word.to_le_bytes();
    u32::from(second) + 65536 * u32::from(fourth)
}

// A sum of words without 255 times that of their odd bytes: what is left counts every byte once, two in each half. 256 times the
// one is taken off, and once is added again, which is less work than 255 times.
fn pairs_of(words: u32, odd: u32) -> u32
    ensures { (result + 255 * odd) % 4294967296 ≡ words }
{
    words.wrapping_sub(odd.wrapping_mul(256)).wrapping_add(odd)
}

fn halves(x: u32) -> u32
    ensures { (result ≡ halves x) × (result ≤ 131070) }
{
    x % 65536 + x / 65536
}

fn product(weight: u32, sum: u32) -> u32
    requires { (weight ≤ 512) × (sum ≤ 131070) }
    ensures { (result ≡ weight * sum) × (result ≤ 67107840) }
{
    weight * sum
}

impl Column {
    fn add(self, b: &Checked) -> WordSums
        ensures words { SumsOf self.count (λ k. word_at b.now (self.start + self.stride * k)) result.words }
        ensures odd { SumsOf self.count (λ k. odd_at b.now (self.start + self.stride * k)) result.odd }
    {
        let mut sums = WordSums::default();
        for row in (0..usize::from(self.count)).rev() {
            let word = word_at(b, usize::from(self.start) + usize::from(self.stride) * row);
            sums.words = sums.words.with_first(word);
            sums.odd = sums.odd.with_first(odd_bytes(word));
        }
        sums
    }

    // What the words add to the check, from their sums. The sum of their bytes is below 32768, so `% 32768` changes nothing; it shows
    // the compiler that one instruction can multiply four columns.
    fn weigh(self, pairs: u32, weighted: u32, odd: u32) -> u32
        ensures { (result ≡ weighed self.start self.stride pairs weighted odd) × (result ≤ 140000000) }
    {
        product(u32::from(self.stride), halves(weighted))
            + product(u32::from(self.start) + 1, halves(pairs) % 32768)
            + 2 * (pairs / 65536)
            + halves(odd)
    }

    // What the words add to the check.
    fn sum(self, b: &Checked) -> u32
        ensures { (result ≡ sum_below self.count (λ k. word_sum b.now (self.start + self.stride * k))) × (result ≤ 140000000) }
    {
        let WordSums { words, odd } = self.add(b);
        self.weigh(
            pairs_of(words.plain, odd.plain),
            pairs_of(words.weighted, odd.weighted),
            odd.plain,
        )
    }
}

// The sum of (position + 1) times the byte: the rows column by column, and the words after them.
fn checksum(b: &Checked) -> u32
    ensures { result ≡ block.checksum b.now }
{
    let mut sum = 0;
    for word in 0..8 {
        let column = Column {
            start: 4 * word,
            stride: ROW_SIZE,
            count: ROWS,
        };
        sum += column.sum(b);
    }
    let rest = Column {
        start: ROWS * ROW_SIZE,
        stride: 4,
        count: 7,
    };
    sum + rest.sum(b)
}

/// The checksum that a block of these bytes must hold; 0 where there are fewer than 508.
// A number for any length, and no `Option`: a function that could not fail still cannot.
#[tactic(auto, using(crate::proofs::Words::checksum_short, crate::proofs::Words::checksum_first))]
pub fn block_checksum(b: &[u8]) -> u32
    ensures { result ≡ block.checksum_or_zero b.now }
{
    b.first_chunk().map_or(0, checksum)
}
