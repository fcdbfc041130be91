// The run over a case file: what is read, chunk after chunk, and what is written of it.
#![tactic(auto)]

mod chunk;
mod line;
mod part;
mod run;

pub use blocks::BLOCK_SIZE;
use report::LINE_ROOM;
pub use run::{start, step};

// How many blocks a step takes at most.
const BLOCKS: usize = 128;

/// How many bytes a step takes at most.
pub const INPUT_SIZE: usize = BLOCKS * BLOCK_SIZE;

/// How many bytes hold all that a step writes: the lines of its blocks and the end line.
pub const OUTPUT_SIZE: usize = (BLOCKS + 1) * LINE_ROOM;

/// Room for what a step takes.
pub type Input = [u8; INPUT_SIZE];

/// Room for what a step writes.
pub type Output = [u8; OUTPUT_SIZE];

/// What can come after the bytes read so far: more, nothing since the file has ended, or nothing since a read failed.
#[derive(Clone, Copy, Debug, PartialEq, Eq)]
pub enum Source {
    Open,
    Ended,
    Failed,
}

/// How many blocks were read, and how many of them were paid.
#[derive(Clone, Copy, Debug, Default, PartialEq, Eq)]
pub struct Counts {
    pub blocks: u32,
    pub paid: u32,
}

/// How far a run has come: the counts; how many bytes the next step takes at most, 0 where the run is over; how many bytes of a part of
/// a block stand at the start of the input already, which waits for its rest or, where a read failed, is what came of a block, 0 where
/// the file has ended; and how many bytes at the start of the output to write before the next step. Lengths, since input and output are
/// lent by the caller. `wanted` is no `Option`: `Some(0)` would be a second way to say that the run is over.
#[derive(Clone, Copy, Debug, PartialEq, Eq)]
pub struct Progress {
    pub counts: Counts,
    pub wanted: usize,
    pub held: usize,
    pub length: usize,
}
