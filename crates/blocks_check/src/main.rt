// Reads records from standard input, a 16-bit length, low byte first, and so many bytes each, and prints a line for each: its
// number from 1, and the refusal or every field of the case in block order. It stops at a record that is longer than 513 bytes,
// and where the input ends.
#![tactic(auto)]

use blocks::read_block;
use calendar::Date;
use cases::{Case, Line};
use std::io::{ErrorKind, Read};
use std::{fmt, io};

// A block and a byte more.
const LONGEST: usize = 513;

#[derive(Clone, Copy, Debug)]
struct Day<'a>(&'a Date);

impl fmt::Display for Day<'_> {
    fn fmt<W: fmt::Write>(&self, f: &mut fmt::Formatter<W>) -> fmt::Result {
        let Date { year, month, day } = self.0;
        write!(f, "{year}-{month}-{day}")
    }
}

// A line without its divorce debit, which stands apart in a block.
#[derive(Clone, Copy, Debug)]
struct Benefits<'a>(&'a Line);

impl fmt::Display for Benefits<'_> {
    fn fmt<W: fmt::Write>(&self, f: &mut fmt::Formatter<W>) -> fmt::Result {
        let Line {
            date,
            pension,
            additional,
            survivor,
            dependant,
            lump,
            modification,
            scheme_pays,
            scheme_pays_lump,
            ..
        } = self.0;
        write!(
            f,
            "{} {pension} {additional} {survivor} {dependant} {lump} {modification} {scheme_pays} {scheme_pays_lump}",
            Day(date)
        )
    }
}

#[derive(Clone, Copy, Debug)]
struct DivorceDebit<'a>(&'a Line);

impl fmt::Display for DivorceDebit<'_> {
    fn fmt<W: fmt::Write>(&self, f: &mut fmt::Formatter<W>) -> fmt::Result {
        let Line {
            debit_pension,
            debit_survivor,
            debit_lump,
            ..
        } = self.0;
        write!(f, "{debit_pension} {debit_survivor} {debit_lump}")
    }
}

// Every field of a case in block order.
#[derive(Clone, Copy, Debug)]
struct Fields<'a>(&'a Case);

impl fmt::Display for Fields<'_> {
    fn fmt<W: fmt::Write>(&self, f: &mut fmt::Formatter<W>) -> fmt::Result {
        let Case {
            kind,
            number,
            status,
            receiver,
            flags,
            count,
            service,
            sex,
            birth,
            leaving,
            guarantee,
            state_pension,
            revaluation,
            avc,
            transfer,
            contributions,
            lines,
        } = self.0;
        write!(
            f,
            "{kind} {number} {status} {receiver} {flags} {count} {service} {sex}"
        )?;
        for date in [birth, leaving, guarantee, state_pension] {
            write!(f, " {}", Day(date))?;
        }
        write!(f, " {revaluation} {avc} {transfer} {contributions}")?;
        for line in lines {
            write!(f, " {}", Benefits(line))?;
        }
        for line in lines {
            write!(f, " {}", DivorceDebit(line))?;
        }
        Ok(())
    }
}

// The bytes of the next record, unless it is too long. Where the input ends before, it is the error UnexpectedEof.
fn read_record<'a, R: Read>(
    input: &mut R,
    buffer: &'a mut [u8; LONGEST],
) -> io::Result<Option<&'a [u8]>> {
    let mut length = [0u8; 2];
    input.read_exact(&mut length)?;
    let Some(record) = buffer.get_mut(..usize::from(u16::from_le_bytes(length))) else {
        return Ok(None);
    };
    input.read_exact(record)?;
    Ok(Some(record))
}

// A loop of its own, as in calendar_check.
fn print_readings<R: Read>(rt: &impl Print, input: &mut R) -> io::Result<()> {
    let mut buffer = [0u8; LONGEST];
    // Every loop is proved to end, hence a limit.
    for number in 1..1_000_000 {
        let Some(record) = read_record(input, &mut buffer)? else {
            return Ok(());
        };
        match read_block(record) {
            Ok(case) => println!(rt; "{number} read {}", Fields(&case))?,
            Err(refusal) => println!(rt; "{number} refused {refusal}")?,
        }
    }
    Ok(())
}

fn main(rt: HostRuntime) -> io::Result<()> {
    match print_readings(&rt, &mut rt.stdin()) {
        Err(e) if e.kind() != ErrorKind::UnexpectedEof => Err(e),
        // The input has ended, or a record is too long.
        _ => Ok(()),
    }
}
