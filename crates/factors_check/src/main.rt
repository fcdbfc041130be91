// Compares the factor tables with a second transcription of the notes, read on standard input, and looks up
// every key of a range that reaches past both ends of each table.
#![tactic(auto)]

use factors::{Factors, Table};
use std::io;
use std::io::Read;

// A table as the transcription and the report speak of it.
#[derive(Clone, Copy, Debug)]
struct Transcribed {
    table: Table,
    year: u16,
    // The byte after the year of a line, and what the report calls its rows: m and f where there is a table for each sex.
    rows: &'static [(u8, &'static str)],
    // What the report calls its keys, the first of them, and the end of those that are looked up, from 0 on.
    keys: &'static str,
    first: u32,
    end: u32,
    // Keys on either side of it.
    outside: [u32; 4],
}

static TABLES: [Transcribed; 3] = [
    Transcribed {
        table: Table::Section1995,
        year: 1995,
        rows: &[(b'm', "rows for men"), (b'f', "rows for women")],
        keys: "ages",
        first: 22,
        end: 65536,
        outside: [0, 21, 60, 65535],
    },
    Transcribed {
        table: Table::Section2008,
        year: 2008,
        rows: &[(b'm', "rows for men"), (b'f', "rows for women")],
        keys: "ages",
        first: 18,
        end: 65536,
        outside: [0, 17, 65, 65535],
    },
    Transcribed {
        table: Table::Scheme2015,
        year: 2015,
        rows: &[(b' ', "rows")],
        keys: "years",
        first: 1,
        end: 100_001,
        outside: [0, 51, 52, 100000],
    },
];

impl Transcribed {
    // What the table has for a key: an age, or years ahead where it goes by them.
    fn row(&self, key: u32) -> Option<Factors> {
        match self.table {
            Table::Scheme2015 => self.table.row(0, key),
            _ => self.table.row(u16::try_from(key).ok()?, 0),
        }
    }

    // What a line of the table has after its year and mark. A line that starts otherwise, as a comment does, belongs to no table.
    fn after_mark<'a>(&self, mark: u8, line: &'a [u8]) -> Option<&'a [u8]> {
        let (year, rest) = number(line)?;
        let rest = rest.strip_prefix(&[mark])?;
        (year == u64::from(self.year)).then_some(rest)
    }

    // The key and the row that a line has after its mark: two figures where the notes have two columns, else four.
    fn read_row(&self, line: &[u8]) -> Option<(u64, Factors)> {
        let (key, rest) = number(after_blank(line))?;
        let (pension, rest) = hundredths(rest)?;
        if let Table::Scheme2015 = self.table {
            let (survivor, rest) = hundredths(rest)?;
            let row = Factors {
                pension,
                survivor,
                ..Factors::default()
            };
            return rest.is_empty().then_some((key, row));
        }
        let (lump, rest) = hundredths(rest)?;
        let (survivor, rest) = hundredths(rest)?;
        let (deduction, rest) = hundredths(rest)?;
        let row = Factors {
            pension,
            lump,
            survivor,
            deduction,
        };
        rest.is_empty().then_some((key, row))
    }

    // Whether a line, after its mark, is the row for a key.
    fn is_row(&self, key: u32, line: &[u8]) -> bool {
        self.row(key)
            .is_some_and(|row| self.read_row(line) == Some((u64::from(key), row)))
    }
}

fn after_blank(text: &[u8]) -> &[u8] {
    text.strip_prefix(b" ").unwrap_or(text)
}

// The number of the decimal digits that a text starts with, and what follows them.
fn number(text: &[u8]) -> Option<(u64, &[u8])> {
    let end = text
        .iter()
        .position(|byte| !byte.is_ascii_digit())
        .unwrap_or(text.len());
    let (digits, rest) = text.split_at(end);
    let n = digits.iter().try_fold(0u64, |n, &digit| {
        n.checked_mul(10)?
            .checked_add(u64::from(char::from(digit).to_digit(10)?))
    })?;
    Some((n, rest))
}

// A figure such as 8.93, after a blank, in hundredths, and what follows it.
fn hundredths(text: &[u8]) -> Option<(u64, &[u8])> {
    let (pounds, rest) = number(after_blank(text))?;
    let decimals = rest.strip_prefix(b".")?;
    let (part, after) = number(decimals)?;
    if after.len() + 2 != decimals.len() {
        return None;
    }
    Some((pounds.checked_mul(100)?.checked_add(part)?, after))
}

// How many lines with the mark are the table's rows, first to last. One that is not the row that follows the lines before it is
// printed, so that none is left out or stands twice.
fn count_rows(rt: &impl Print, table: &Transcribed, mark: u8, text: &[u8]) -> io::Result<u64> {
    let lines = text
        .split(|&b| b == b'\n')
        .filter_map(|line| Some((line, table.after_mark(mark, line)?)));
    let mut agree: u64 = 0;
    for (key, (line, row)) in (table.first..).zip(lines) {
        if table.is_row(key, row) {
            agree = agree.saturating_add(1);
        } else {
            print!(rt; "differs: ")?;
            // The bytes of the line as they are, which need not be text.
            rt.write_all(line)?;
            println!(rt)?;
        }
    }
    Ok(agree)
}

fn check(rt: &impl Print, table: &Transcribed, text: &[u8]) -> io::Result<()> {
    let year = table.year;
    for (mark, rows) in table.rows {
        let agree = count_rows(rt, table, *mark, text)?;
        println!(rt; "{year}: {agree} {rows} agree")?;
    }
    print!(rt; "{year}: absent at")?;
    for &key in &table.outside {
        if table.row(key).is_none() {
            print!(rt; " {key}")?;
        }
    }
    println!(rt)?;
    // Up to an end: with a last key in its place the whole run takes 2.9 times the instructions.
    let found = (0..table.end)
        .filter(|&key| table.row(key).is_some())
        .count();
    println!(rt; "{year}: {found} {} have a row", table.keys)
}

// Reads until the buffer is full or the input ends, and hands on what came. A loop by hand: std reads to the end into a `Vec` alone,
// and `read_exact` does not tell how many bytes came before the end.
fn read_start<'a, R: Read>(input: &mut R, buffer: &'a mut [u8]) -> io::Result<&'a [u8]> {
    let mut length = 0;
    while length < buffer.len() {
        let more = input.read(&mut buffer[length..])?;
        if more == 0 {
            break;
        }
        length += more;
    }
    Ok(&buffer[..length])
}

fn main(rt: HostRuntime) -> io::Result<()> {
    let mut buffer = [0u8; 65536];
    let text = read_start(&mut rt.stdin(), &mut buffer)?;
    for table in &TABLES {
        check(&rt, table, text)?;
    }
    Ok(())
}
