// The case that a block holds, field by field.
ghost use Rattle.std.specs.Prelude.{◌≡◌, ◌≤◌};
ghost use Rattle.buffers.specs.Bytes.{number_at};
ghost use Rattle.cases.specs.Entries as entries;
ghost use Rattle.blocks.specs.Block.{line_of, lines_of, head_of};

use crate::{Block, Place};
use buffers::bytes_at;
use calendar::Date;
use cases::{Case, Line};
use std::array;

fn date_at(block: &Block, at: usize) -> Date
    ensures { result ≡ entries.date_of (number_at 4 block.now at) }
{
    Date::from(bytes_at(block, at))
}

fn amount_at(block: &Block, at: usize) -> u64
    ensures { result ≡ number_at 8 block.now at }
{
    u64::from_le_bytes(bytes_at(block, at))
}

// The line at a place. Here and in `head_of` an offset stands once, beside the field that it is of: a name would say the same.
#[tactic(auto, unfolding(cases::specs::Entries::line_by))]
pub(crate) fn line_of(block: &Block, place: Place) -> Line
    ensures { result ≡ line_of block.now place.index }
{
    let (line, debit) = (place.line(), place.debit());
    Line {
        date: date_at(block, line),
        pension: amount_at(block, line + 8),
        additional: amount_at(block, line + 16),
        survivor: amount_at(block, line + 24),
        dependant: amount_at(block, line + 32),
        lump: amount_at(block, line + 40),
        modification: amount_at(block, line + 48),
        scheme_pays: amount_at(block, line + 56),
        scheme_pays_lump: amount_at(block, line + 64),
        debit_pension: amount_at(block, debit),
        debit_survivor: amount_at(block, debit + 8),
        debit_lump: amount_at(block, debit + 16),
    }
}

// The case of a block's fields before the lines, with lines of zeros in their place.
#[tactic(auto, using(buffers::proofs::Bytes::number_one), unfolding(crate::specs::Block::head_of, cases::specs::Entries::line_by))]
pub(crate) fn head_of(block: &Block) -> Case
    ensures { result ≡ head_of block.now }
{
    Case {
        kind: u16::from_le_bytes(bytes_at(block, 0)),
        number: u32::from_le_bytes(bytes_at(block, 4)),
        status: block[8],
        receiver: block[9],
        flags: block[10],
        count: block[11],
        service: u16::from_le_bytes(bytes_at(block, 12)),
        sex: block[14],
        birth: date_at(block, 16),
        leaving: date_at(block, 20),
        guarantee: date_at(block, 24),
        state_pension: date_at(block, 28),
        revaluation: u32::from_le_bytes(bytes_at(block, 32)),
        avc: amount_at(block, 40),
        transfer: amount_at(block, 48),
        contributions: amount_at(block, 56),
        lines: [Line::default(); 4],
    }
}

pub(crate) fn lines_of(block: &Block) -> [Line; 4]
    ensures { result ≡ lines_of block.now }
{
    array::from_fn(
        |index|
            requires { index ≤ 3 }
        { line_of(block, Place { index }) },
    )
}
