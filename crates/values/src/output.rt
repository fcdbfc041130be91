// Writing the report, and the texts that the program is asked for.
ghost use Rattle.std.specs.Prelude.{ℕ, ◌≡◌, ◌≤◌, length, take, OnOk};
ghost use Rattle.std.specs.Io.{WritesAtMost};
ghost use Rattle.std.specs.Io.KnownBytes.{Appends, WriteAppends};
ghost use Rattle.version.specs.Version.{version_line};

use crate::MOST_TRIES;
use std::io;
use std::io::{ErrorKind, Write};

// One write, made again where a signal interrupted it before a byte went. Apart from `read_once`: a closure in place of the call would
// need a clause for what an interrupted one leaves, and be no plainer.
fn write_once<W: Write>(writer: &mut W, bytes: &[u8]) -> io::Result<usize>
    ensures bound { WritesAtMost result bytes.now }
    ensures bytes { WriteAppends (W.contents writer.old) (W.contents writer.new) result bytes.now }
{
    for _ in 0..MOST_TRIES {
        match writer.write(bytes) {
            Err(e) if e.kind() == ErrorKind::Interrupted => {}
            put => return put,
        }
    }
    writer.write(bytes)
}

// Writes all the bytes, or answers why not. Those that went are the first of them, which `write_all` does not promise.
pub(crate) fn write_whole<W: Write>(writer: &mut W, bytes: &[u8]) -> io::Result<()>
    ensures whole { OnOk result (Appends (W.contents writer.old) (W.contents writer.new) bytes.now) }
    ensures first { (n : ℕ) × (n ≤ length bytes.now) × Appends (W.contents writer.old) (W.contents writer.new) (take n bytes.now) }
{
    let mut rest = bytes;
    while !rest.is_empty() {
        match write_once(writer, rest)? {
            0 => return Err(io::Error::from(ErrorKind::WriteZero)),
            n => rest = &rest[n..],
        }
    }
    Ok(())
}

// A line of the text that is continued loses its leading spaces, hence `\x20`.
pub(crate) const USAGE: &[u8] = b"usage: values < CASES > REPORT\n\
    \x20      values --help | --version\n\
    \n\
    Values the case file on standard input, and writes its report to standard\n\
    output. The report is complete only if its last line is the end line; the exit\n\
    status does not tell. values-report (bin/report) runs values, checks the report,\n\
    and has an exit status that does.\n";

// Bytes and a length: the library forms the line in a lent buffer, without memory of its own.
pub(crate) fn write_version<W: Write>(writer: &mut W) -> io::Result<()>
    ensures { OnOk result (Appends (W.contents writer.old) (W.contents writer.new) version_line) }
{
    let mut line = [0u8; 32];
    let n = version::form_version(&mut line);
    write_whole(writer, &line[..n])
}
