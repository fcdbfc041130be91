// Prints the number and the name of each refusal.
#![tactic(auto)]

use refusals::Refusal;
use std::io;

// In the order of their numbers.
const REFUSALS: [Refusal; 17] = [
    Refusal::Length,
    Refusal::Check,
    Refusal::Kind,
    Refusal::Reserved,
    Refusal::Range,
    Refusal::Dates,
    Refusal::Status,
    Refusal::Receiver,
    Refusal::Service,
    Refusal::Refer,
    Refusal::Age,
    Refusal::Factor,
    Refusal::Debit,
    Refusal::Negative,
    Refusal::Buffer,
    Refusal::Award,
    Refusal::Order,
];

fn main(rt: HostRuntime) -> io::Result<()> {
    for refusal in REFUSALS {
        println!(rt; "{refusal}")?;
    }
    Ok(())
}
