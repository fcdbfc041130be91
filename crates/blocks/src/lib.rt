// A case's block of 512 bytes: its checksum, and reading it.
#![tactic(auto)]

mod check;
mod column;
mod fields;
mod gaps;
mod place;
mod read;

pub use check::block_checksum;
pub(crate) use place::Place;
pub use read::{case_in, check_block, read_block};

// Where the check stands, which is made of the bytes before it.
const CHECK: usize = 508;

/// How many bytes a block has.
pub const BLOCK_SIZE: usize = 512;

/// A block whose length was tested.
pub type Block = [u8; BLOCK_SIZE];
