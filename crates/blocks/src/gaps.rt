// Bytes of a block that are not zero: those of a line, and those that no field names.
ghost use Rattle.std.specs.Prelude.{◌≡◌, ◌+◌, ◌≤◌, ◌||◌, ◌==◌, not, length};
ghost use Rattle.numbers.specs.Lists.{any};
ghost use Rattle.cases.specs.Layout.{◌wide◌, line_at, divorce_debit_at};
ghost use Rattle.blocks.specs.Block.{nonzero, unnamed_fault};

use crate::place::{DEBIT_SIZE, LINE_SIZE};
use crate::{Block, Place};

// Whether one of some bytes is not zero.
fn nonzero(bytes: &[u8]) -> bool
    ensures { result ≡ any (λ byte. not (byte == 0)) bytes.now }
{
    bytes.iter().fold(0, |bits, &byte| bits | byte) != 0
}

// Whether a byte of the line at a place or of its divorce debit is not zero.
pub(crate) fn line_nonzero(block: &Block, place: Place) -> bool
    ensures { result ≡ (nonzero block.now (line_at place.index wide 72) || nonzero block.now (divorce_debit_at place.index wide 24)) }
{
    let (line, debit) = (place.line(), place.debit());
    // `|` and no branch: with `||` a block took 1.7 in a hundred more of its 1,929 instructions.
    nonzero(&block[line..line + LINE_SIZE]) | nonzero(&block[debit..debit + DEBIT_SIZE])
}

// Whether a byte that no field names is not zero. Each part stands here once: a name would say the same as its offsets. `|` and no
// loop over the parts: that took 86 instructions for a block, with a branch for each part.
pub(crate) fn unnamed_fault(block: &Block) -> bool
    ensures { result ≡ unnamed_fault block.now }
{
    nonzero(&block[2..4])
        | nonzero(&block[15..16])
        | nonzero(&block[36..40])
        | nonzero(&block[68..72])
        | nonzero(&block[140..144])
        | nonzero(&block[212..216])
        | nonzero(&block[284..288])
        | nonzero(&block[448..508])
}
