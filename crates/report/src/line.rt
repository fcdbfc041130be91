// The header, a block's line and the end line, each formed at the start of a lent buffer, whose later bytes keep their contents.
// Where fewer than 256 bytes are lent no byte changes, and the answer is refusal 15. The first lines of the three functions and the
// last are the same: a function round them would take a closure over a text that it lends on, and be no shorter.
ghost use Rattle.std.specs.Prelude.{◌≡◌, length};
ghost use Rattle.report.specs.Lines.{header, line_of, end_line};
ghost use Rattle.report.specs.Forming.{formed_as, formed_numbers, buffer_with};

use crate::parts::put_outcome;
use answers::Answer;
use buffers::Text;
use refusals::{Refusal, refuse_if};

/// The fewest bytes in which a line is formed (01, refusal 15).
pub const LINE_ROOM: usize = 256;

// The answer by value: behind a reference the check knows no range of its amounts, by which the line has room.
/// Forms the line of a block from its place in the file, counted from 1, and the answer to it: the line's length in bytes, or refusal
/// 15 where fewer than [`LINE_ROOM`] are lent.
#[tactic(auto, unfolding(crate::specs::Forming::formed_as, crate::specs::Forming::buffer_with))]
pub fn form_line(out: &mut [u8], place: u32, answer: Answer) -> Result<usize, Refusal>
    ensures answer { result ≡ formed_as (length out.old) (line_of place answer) }
    ensures numbers { formed_numbers result ≡ formed_numbers (formed_as (length out.old) (line_of place answer)) }
    ensures bytes { out.new ≡ buffer_with out.old (line_of place answer) }
{
    refuse_if(out.len() < LINE_ROOM, Refusal::Buffer)?;
    let mut line = Text::new(out, 0);
    line.put_decimal(u64::from(place));
    line.put(b" ");
    line.put_decimal(u64::from(answer.number));
    put_outcome(&mut line, &answer.outcome);
    Ok(line.length())
}

/// Forms the report's first line: its length in bytes, or refusal 15 where fewer than [`LINE_ROOM`] are lent.
#[tactic(auto, unfolding(crate::specs::Forming::formed_as, crate::specs::Forming::buffer_with))]
pub fn form_header(out: &mut [u8]) -> Result<usize, Refusal>
    ensures answer { result ≡ formed_as (length out.old) header }
    ensures numbers { formed_numbers result ≡ formed_numbers (formed_as (length out.old) header) }
    ensures bytes { out.new ≡ buffer_with out.old header }
{
    refuse_if(out.len() < LINE_ROOM, Refusal::Buffer)?;
    let mut line = Text::new(out, 0);
    line.put(b"transfer values\n");
    Ok(line.length())
}

// Two numbers and no struct: `runs`, which counts them, stands above, and a struct from here would be taken apart again at once.
/// Forms the report's last line, of how many blocks were read and how many of them are paid: its length in bytes, or refusal 15 where
/// fewer than [`LINE_ROOM`] are lent.
#[tactic(auto, unfolding(crate::specs::Forming::formed_as, crate::specs::Forming::buffer_with))]
pub fn form_end(out: &mut [u8], blocks: u32, paid: u32) -> Result<usize, Refusal>
    ensures answer { result ≡ formed_as (length out.old) (end_line blocks paid) }
    ensures numbers { formed_numbers result ≡ formed_numbers (formed_as (length out.old) (end_line blocks paid)) }
    ensures bytes { out.new ≡ buffer_with out.old (end_line blocks paid) }
{
    refuse_if(out.len() < LINE_ROOM, Refusal::Buffer)?;
    let mut line = Text::new(out, 0);
    line.put(b"end ");
    line.put_decimal(u64::from(blocks));
    line.put(b" blocks ");
    line.put_decimal(u64::from(paid));
    line.put(b" paid\n");
    Ok(line.length())
}
