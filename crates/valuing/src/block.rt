// Reading a block and valuing its case.
ghost use Rattle.std.specs.Prelude.{◌≡◌, Ok};
ghost use Rattle.refusals.specs.Tests.{first};
ghost use Rattle.blocks.specs.Block.{case_of};
ghost use Rattle.blocks.specs.Reading.{reading_tests};
ghost use Rattle.answers.specs.Answer.{answer_of};
ghost use Rattle.answers.specs.Compare.{Demand3};
ghost use Rattle.answers.specs.Exact.{GrossNearExact};
ghost use Rattle.valuing.specs.Block.{block_answer, answer_numbers, WhereRead};

use crate::FormedCase;
use crate::valuation::value_formed;
use answers::{Answer, Outcome};
use blocks::{Block, case_in, check_block};

// The answer to a block that was read. Apart from `value_block`, which would set the memory of the case to zeros before its fields are
// written; inlined, as it is called once.
#[inline(always)]
fn value_case(block: &Block) -> Answer
    requires { first (reading_tests block.now) ≡ Ok tt }
    ensures number { result.number ≡ (case_of block.now).number }
    ensures outcome { result.outcome ≡ answer_of (case_of block.now) }
{
    let case = case_in(block);
    Answer {
        number: case.number,
        outcome: Outcome::from(value_formed(FormedCase { case: &case })),
    }
}

/// The answer to a block of any length: reading's refusal, or what valuing answers to the case that it holds. Reading has already
/// asked refusals 3, 4 and 5 of that case.
#[tactic(auto, using(answers::proofs::Comparison::demand3, answers::proofs::Exact::answer_near_exact), unfolding(crate::specs::Block::block_answer, blocks::specs::Reading::reading_of))]
pub fn value_block(block: &[u8]) -> Answer
    ensures answer { result ≡ block_answer block.now }
    ensures numbers { answer_numbers result ≡ answer_numbers (block_answer block.now) }
    ensures compared { WhereRead Demand3 block.now result }
    ensures near { WhereRead GrossNearExact block.now result }
{
    match check_block(block) {
        Ok(block) => value_case(block),
        Err(refusal) => Answer {
            number: 0,
            outcome: Outcome::Refused(refusal),
        },
    }
}
