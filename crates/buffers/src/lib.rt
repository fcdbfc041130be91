// Bytes at an index; a text under construction in a lent buffer.
#![tactic(auto)]

mod digits;
mod number;
mod text;

pub use number::bytes_at;
pub use text::Text;
