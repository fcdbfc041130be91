// Reading a block: refusals 1 to 5, or the case that it holds.
ghost use Rattle.std.specs.Prelude.{◌≡◌, ◌≤◌, ◌==◌, not, Ok, Err, IfOk, IfErr, OnOk};
ghost use Rattle.refusals.specs.Refusals.{number_of};
ghost use Rattle.refusals.specs.Tests.{first, verdict_number};
ghost use Rattle.cases.specs.Layout.{check};
ghost use Rattle.cases.specs.Form.{lines_faults, form_tests};
ghost use Rattle.blocks.specs.Block.{field_of, checksum, head_of, case_of, unnamed_fault};
ghost use Rattle.blocks.specs.Reading.{reading_tests, reading_of, reading_number};

use crate::check::block_checksum;
use crate::fields::{head_of, line_of, lines_of};
use crate::gaps::{line_nonzero, unnamed_fault};
use crate::{Block, CHECK, Place};
use buffers::bytes_at;
use cases::{Case, Faults, RuledCase};
use refusals::{Refusal, refuse_if};

// Whether the check that a block holds is not the one that its other bytes make.
#[tactic(auto, unfolding(crate::specs::Block::checksum_or_zero))]
fn is_damaged(block: &Block) -> bool
    ensures { result ≡ not (checksum block.now == field_of block.now check) }
{
    block_checksum(block) != u32::from_le_bytes(bytes_at(block, CHECK))
}

// What the lines of a block break, whose fields before the lines are those of `head`. Each is read and tested by itself: a whole case
// made for this would be spread over the stack and copied again. Past the count nearly every line is zeros, which breaks nothing; its
// bytes show that at less cost than its fields. A loop of its own: one with that of `cases` would be handed a closure, and ask of it
// what each caller promises.
fn faults_of_lines(block: &Block, head: &RuledCase<'_>) -> Faults
    ensures { result ≡ lines_faults head.now.case.now (case_of block.now) }
{
    let mut faults = Faults::default();
    for index in 0..4 {
        if usize::from(head.case.count) <= index && !line_nonzero(block, Place { index }) {
            continue;
        }
        let line = line_of(block, Place { index });
        faults = faults | head.faults_of_line(index, &line);
    }
    faults
}

// Refusals 3, 4 and 5 of a block's case, whose fields before the lines are those of `head`. Its lines are tested in the block.
fn check_form(block: &Block, head: &Case) -> Result<(), Refusal>
    requires { head.now ≡ head_of block.now }
    ensures { result ≡ first (form_tests (unnamed_fault block.now) (case_of block.now)) }
{
    let ruled = RuledCase::new(head);
    ruled.check_form_by(unnamed_fault(block), faults_of_lines(block, &ruled))
}

/// Some bytes as a block, if none of refusals 1 to 5 applies, or the first of them that does.
pub fn check_block(b: &[u8]) -> Result<&Block, Refusal>
    ensures same { IfOk result (λ block. block.now ≡ b.now) }
    ensures ok { OnOk result (first (reading_tests b.now) ≡ Ok tt) }
    ensures err { IfErr result (λ why. first (reading_tests b.now) ≡ Err why) }
    ensures number { IfErr result (λ why. number_of why ≡ verdict_number (first (reading_tests b.now))) }
{
    let block: &Block = b.try_into().map_err(|_| Refusal::Length)?;
    refuse_if(is_damaged(block), Refusal::Check)?;
    check_form(block, &head_of(block))?;
    Ok(block)
}

/// The case that a block holds, whether or not reading would refuse it.
#[tactic(auto, unfolding(crate::specs::Block::head_of, crate::specs::Block::case_of, cases::specs::Entries::case_by))]
pub fn case_in(block: &Block) -> Case
    ensures { result ≡ case_of block.now }
{
    Case {
        lines: lines_of(block),
        ..head_of(block)
    }
}

/// The case that some bytes hold, if they are a block, or the first of refusals 1 to 5 that applies.
#[tactic(auto, unfolding(crate::specs::Reading::reading_of))]
pub fn read_block(b: &[u8]) -> Result<Case, Refusal>
    ensures reading { result ≡ reading_of b.now }
    ensures number { reading_number result ≡ verdict_number (first (reading_tests b.now)) }
{
    let block = check_block(b)?;
    Ok(case_in(block))
}
