// For the benchmark to time: the stages of the way of a block, one function to a stage, each doing the work of those before it; and
// the check by bytes.
#![tactic(auto)]

mod by_bytes;

ghost use Rattle.std.specs.Prelude.{◌≡◌, MatchResult};
ghost use Rattle.blocks.specs.Block.{checksum_or_zero};
ghost use Rattle.blocks.specs.Reading.{reading_of};
ghost use Rattle.valuing.specs.Block.{block_answer};
ghost use Rattle.answers.specs.Answer.{paid};

use blocks::{block_checksum, read_block};
pub use by_bytes::stages_check_by_bytes;
use valuing::value_block;

/// The checksum that a block of these bytes must hold; 0 where there are fewer than 508.
#[unsafe(no_mangle)]
pub extern "C" fn stages_check(block: &[u8]) -> u32
    ensures { result ≡ checksum_or_zero block.now }
{
    block_checksum(block)
}

/// The case number of a block that is read, else 0.
#[unsafe(no_mangle)]
pub extern "C" fn stages_read(block: &[u8]) -> u32
    ensures { MatchResult (reading_of block.now) (λ case. result ≡ case.number) (λ _. result ≡ 0) }
{
    read_block(block).map_or(0, |case| case.number)
}

/// What is paid on a block, in pence, else 0.
#[unsafe(no_mangle)]
pub extern "C" fn stages_value(block: &[u8]) -> u64
    ensures { result ≡ paid (block_answer block.now).outcome }
{
    value_block(block).outcome.payment().unwrap_or(0)
}
