// Valuing a case: what is paid, or why it is refused.
#![tactic(auto)]

mod block;
mod formed;
mod pay;
mod sum;
mod valuation;

pub use block::value_block;
pub(crate) use formed::FormedCase;
pub use valuation::value;
