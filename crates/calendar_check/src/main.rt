// Reads pairs of dates from standard input, 8 bytes each, and prints a line for each: its place, whether each date is a
// real day, and of two real days whether the first stands before the second, the age on the second of one born on the
// first, whether the second stands before the 65th birthday of the first, and the years ahead from the first to the second.
#![tactic(auto)]

use calendar::{Date, age, before_birthday, years_ahead};
use std::io;
use std::io::{ErrorKind, Read};

fn yes_or_no(holds: bool) -> &'static str {
    if holds { "yes" } else { "no" }
}

fn print_pair(rt: &impl Print, place: u64, d: Date, e: Date) -> io::Result<()> {
    let (first, second) = (d.is_real(), e.is_real());
    print!(rt; "{place} {} {} ", yes_or_no(first), yes_or_no(second))?;
    if first && second {
        let before = yes_or_no(d < e);
        let before_65 = yes_or_no(before_birthday(e, d, 65));
        println!(rt; "{before} {} {before_65} {}", age(d, e), years_ahead(d, e))
    } else {
        println!(rt; "- - - -")
    }
}

// By one read: standard input has no buffer of its own.
fn read_pair<R: Read>(input: &mut R) -> io::Result<(Date, Date)> {
    let mut bytes = [0u8; 8];
    input.read_exact(&mut bytes)?;
    let [a, b, c, d, e, f, g, h] = bytes;
    Ok((Date::from([a, b, c, d]), Date::from([e, f, g, h])))
}

// A loop of its own, as in the other check programs: each reads a record of its own kind, and a crate for the loop would be longer.
fn print_pairs<R: Read>(rt: &impl Print, input: &mut R) -> io::Result<()> {
    // Every loop is proved to end, hence a limit.
    for place in 1..1_000_000 {
        let (first, second) = read_pair(input)?;
        print_pair(rt, place, first, second)?;
    }
    Ok(())
}

fn main(rt: HostRuntime) -> io::Result<()> {
    match print_pairs(&rt, &mut rt.stdin()) {
        // The input has ended, maybe in a pair, of which nothing is said.
        Err(e) if e.kind() == ErrorKind::UnexpectedEof => Ok(()),
        printed => printed,
    }
}
