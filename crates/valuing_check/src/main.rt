// Reads cases from standard input, each a record of 64-bit numbers, low byte first, in block order: the fields before the lines,
// then each line's date and its amounts, then each line's divorce debit. A date is year + 65536 × month + 16777216 × day. Each
// number is cut to the width of its field, and the case is valued as it stands, without reading a block. Prints a line for each:
// its place from 1, the case number, and the payment with its items as whole numbers (payment, underpin and AVC in pence, the
// others in hundredths of a penny) or the refusal. The fields are listed here once more, since no block is read.
#![tactic(auto)]

use answers::{Items, Outcome};
use calendar::Date;
use cases::{Case, Line};
use std::io;
use std::io::{ErrorKind, Read};
use std::slice::Iter;

// 64 numbers.
const RECORD_SIZE: usize = 512;

// The low bytes of the next number, as many as its field has.
fn field<const N: usize>(numbers: &mut Iter<'_, [u8; 8]>) -> Option<[u8; N]> {
    numbers.next()?.first_chunk().copied()
}

fn date(numbers: &mut Iter<'_, [u8; 8]>) -> Option<Date> {
    field(numbers).map(Date::from)
}

fn amount(numbers: &mut Iter<'_, [u8; 8]>) -> Option<u64> {
    field(numbers).map(u64::from_le_bytes)
}

// A line whose divorce debit is still to come.
fn line(numbers: &mut Iter<'_, [u8; 8]>) -> Option<Line> {
    Some(Line {
        date: date(numbers)?,
        pension: amount(numbers)?,
        additional: amount(numbers)?,
        survivor: amount(numbers)?,
        dependant: amount(numbers)?,
        lump: amount(numbers)?,
        modification: amount(numbers)?,
        scheme_pays: amount(numbers)?,
        scheme_pays_lump: amount(numbers)?,
        debit_pension: 0,
        debit_survivor: 0,
        debit_lump: 0,
    })
}

// None where a number is missing, of which a whole record has none.
fn case_of(record: &[u8; RECORD_SIZE]) -> Option<Case> {
    let (all, _) = record.as_chunks();
    let numbers = &mut all.iter();
    let mut case = Case {
        kind: u16::from_le_bytes(field(numbers)?),
        number: u32::from_le_bytes(field(numbers)?),
        status: u8::from_le_bytes(field(numbers)?),
        receiver: u8::from_le_bytes(field(numbers)?),
        flags: u8::from_le_bytes(field(numbers)?),
        count: u8::from_le_bytes(field(numbers)?),
        service: u16::from_le_bytes(field(numbers)?),
        sex: u8::from_le_bytes(field(numbers)?),
        birth: date(numbers)?,
        leaving: date(numbers)?,
        guarantee: date(numbers)?,
        state_pension: date(numbers)?,
        revaluation: u32::from_le_bytes(field(numbers)?),
        avc: amount(numbers)?,
        transfer: amount(numbers)?,
        contributions: amount(numbers)?,
        lines: [Line::default(); 4],
    };
    for place in &mut case.lines {
        *place = line(numbers)?;
    }
    for place in &mut case.lines {
        place.debit_pension = amount(numbers)?;
        place.debit_survivor = amount(numbers)?;
        place.debit_lump = amount(numbers)?;
    }
    Some(case)
}

fn print_case(rt: &impl Print, place: u64, case: &Case) -> io::Result<()> {
    let number = case.number;
    match valuing::value(case) {
        Outcome::Paid(
            Items {
                payment,
                pension,
                lump,
                survivor,
                deduction,
                underpin,
                avc,
            },
        ) => println!(rt;
            "{place} {number} pay {payment} pension {pension} lump {lump} survivor {survivor} \
             deduct {deduction} underpin {underpin} avc {avc}"
        ),
        Outcome::Refused(refusal) => println!(rt; "{place} {number} refused {refusal}"),
    }
}

// A loop of its own, as in calendar_check.
fn print_cases<R: Read>(rt: &impl Print, input: &mut R) -> io::Result<()> {
    let mut record = [0u8; RECORD_SIZE];
    // Every loop is proved to end, hence a limit.
    for place in 1..1_000_000 {
        // By one read, and not one for each number: standard input has no buffer of its own.
        input.read_exact(&mut record)?;
        if let Some(case) = case_of(&record) {
            print_case(rt, place, &case)?;
        }
    }
    Ok(())
}

fn main(rt: HostRuntime) -> io::Result<()> {
    match print_cases(&rt, &mut rt.stdin()) {
        // The input has ended, maybe in a record, of which nothing is said.
        Err(e) if e.kind() == ErrorKind::UnexpectedEof => Ok(()),
        printed => printed,
    }
}
