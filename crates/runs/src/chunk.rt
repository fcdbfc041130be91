// A chunk of a case file: its blocks valued, their lines formed one after the other, and counted.
ghost use Rattle.std.specs.Prelude.{◌≡◌, ◌+◌, ◌≤◌, length};
ghost use Rattle.buffers.specs.Text.{Written};
ghost use Rattle.blocks.specs.Files.{all_blocks};
ghost use Rattle.runs.specs.Run.{lines, paid_one, wanted_after, counted};

use crate::line::put_line;
use crate::{BLOCK_SIZE, Counts, OUTPUT_SIZE};
use answers::Outcome;
use report::LINE_ROOM;
use valuing::value_block;

// The counts after a chunk, and how many bytes its lines take.
#[derive(Clone, Copy, Debug, PartialEq, Eq)]
pub(crate) struct Lines {
    pub(crate) counts: Counts,
    pub(crate) length: usize,
}

fn paid_one(outcome: &Outcome) -> u32
    ensures count { result ≡ paid_one outcome.now }
    ensures bound { result ≤ 1 }
{
    u32::from(matches!(outcome, Outcome::Paid(_)))
}

// Values the blocks of a chunk, the last of them maybe a part of one, and forms their lines at the start of out.
#[tactic(auto, using(crate::proofs::Turns::at_start, crate::proofs::Turns::turn))]
pub(crate) fn put_lines(input: &[u8], counts: Counts, out: &mut [u8]) -> Lines
    requires few { length input.now ≤ wanted_after counts }
    requires room { OUTPUT_SIZE ≤ length out.old }
    ensures counts { result.counts ≡ counted counts (all_blocks input.now) }
    ensures written { Written out.old 0 (lines (counts.blocks + 1) (all_blocks input.now)) out.new result.length }
    ensures bound { result.length + LINE_ROOM ≤ OUTPUT_SIZE }
{
    let mut lines = Lines { counts, length: 0 };
    for block in input.chunks(BLOCK_SIZE) {
        let answer = value_block(block);
        lines.counts.blocks += 1;
        lines.counts.paid += paid_one(&answer.outcome);
        lines.length = put_line(out, lines.length, lines.counts.blocks, answer);
    }
    lines
}
