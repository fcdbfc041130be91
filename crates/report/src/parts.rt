// The parts of a block's line after its numbers, each put where there is room for it.
ghost use Rattle.std.specs.Prelude.{◌++◌, ◌/◌};
ghost use Rattle.buffers.specs.Text.{PutsIfRoom};
ghost use Rattle.buffers.specs.Decimal.{fixed_point};
ghost use Rattle.report.specs.Lines.{paid_text, refused_text, outcome_text};

use answers::{Items, Outcome};
use buffers::Text;
use refusals::Refusal;

// A word and an amount: pounds, a point, and the last d digits of n. Inlined, here and below, since the length of each word and d are
// known where they are called: without that, valuing a file takes a fifth more instructions.
#[inline(always)]
fn put_item(line: &mut Text, word: &[u8], pounds: u64, n: u64, d: u8)
    ensures { PutsIfRoom line.old (word.now ++ fixed_point pounds d n) line.new }
{
    line.put(word);
    line.put_fixed_point(pounds, n, d);
}

// A word and an amount in pence.
#[inline(always)]
fn put_pence(line: &mut Text, word: &[u8], pence: u64)
    ensures { PutsIfRoom line.old (word.now ++ fixed_point (pence / 100) 2 pence) line.new }
{
    put_item(line, word, pence / 100, pence, 2);
}

// A word and an amount in hundredths of a penny.
#[inline(always)]
fn put_hundredths(line: &mut Text, word: &[u8], hundredths: u64)
    ensures { PutsIfRoom line.old (word.now ++ fixed_point (hundredths / 10000) 4 hundredths) line.new }
{
    put_item(line, word, hundredths / 10_000, hundredths, 4);
}

fn put_items(line: &mut Text, items: &Items)
    ensures { PutsIfRoom line.old (paid_text items.now) line.new }
{
    put_pence(line, b" pay ", items.payment);
    put_hundredths(line, b" pension ", items.pension);
    put_hundredths(line, b" lump ", items.lump);
    put_hundredths(line, b" survivor ", items.survivor);
    put_hundredths(line, b" deduct ", items.deduction);
    put_pence(line, b" underpin ", items.underpin);
    put_pence(line, b" avc ", items.avc);
    line.put(b"\n");
}

fn put_refusal(line: &mut Text, refusal: Refusal)
    ensures { PutsIfRoom line.old (refused_text refusal) line.new }
{
    line.put(b" refused ");
    line.put_decimal(u64::from(refusal.number()));
    line.put(b" ");
    line.put(refusal.name().as_bytes());
    line.put(b"\n");
}

pub(crate) fn put_outcome(line: &mut Text, outcome: &Outcome)
    ensures { PutsIfRoom line.old (outcome_text outcome.now) line.new }
{
    match outcome {
        Outcome::Paid(items) => put_items(line, items),
        Outcome::Refused(refusal) => put_refusal(line, *refusal),
    }
}
