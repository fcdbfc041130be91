// The refusals, their numbers and names, and tests in their order.
#![tactic(auto)]

mod names;
mod tests;

pub use tests::refuse_if;

/// Why nothing is paid, or no line is formed. Numbers, names and order are those of document 01 and the change requests.
#[derive(Clone, Copy, Debug, PartialEq, Eq)]
pub enum Refusal {
    Length,
    Check,
    Kind,
    Reserved,
    Range,
    Dates,
    Status,
    Receiver,
    Service,
    Refer,
    Age,
    Factor,
    Debit,
    Negative,
    Buffer,
    Award,
    Order,
}
