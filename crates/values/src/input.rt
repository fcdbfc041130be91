// Reading the case file.
ghost use Rattle.std.specs.Prelude.{◌+◌, ◌<◌, ◌≤◌, ◌≡◌, ◌↔◌, length, take, drop, Ok, IsErr, IfOk, OnErr};
ghost use Rattle.std.specs.Io.{ReadsAtMost};
ghost use Rattle.std.specs.Io.KnownBytes.{Consumes, Keeps, IsAtEnd};

use crate::MOST_TRIES;
use runs::{BLOCK_SIZE, Source};
use std::io;
use std::io::{ErrorKind, Read};

// What can come after a read that went well: more, or nothing since the file has ended. With `Source` in its place a clause would have to
// say that such a read has not failed.
#[derive(Clone, Copy, Debug, PartialEq, Eq)]
pub(crate) enum Rest {
    Open,
    Ended,
}

// What a step is told after a read. One match over both: beside a `From<Rest>` the error would be told apart in another.
pub(crate) fn source_of(end: &io::Result<Rest>) -> Source
    ensures open { (result ≡ Source.Open) ↔ (end.now ≡ Ok Rest.Open) }
    ensures ended { (result ≡ Source.Ended) ↔ (end.now ≡ Ok Rest.Ended) }
    ensures failed { (result ≡ Source.Failed) ↔ IsErr end.now }
{
    match end {
        Ok(Rest::Open) => Source::Open,
        Ok(Rest::Ended) => Source::Ended,
        Err(_) => Source::Failed,
    }
}

// One read, made again where a signal interrupted it before a byte came.
fn read_once<R: Read>(reader: &mut R, buf: &mut [u8]) -> io::Result<usize>
    ensures bound { ReadsAtMost result buf.new }
    ensures size { length buf.new ≡ length buf.old }
    ensures read { IfOk result (λ n. Consumes (R.remaining reader.old) (R.remaining reader.new) (take n buf.new)) }
    ensures ended { IfOk result (λ n. n ≡ 0 → 0 < length buf.old → IsAtEnd (R.remaining reader.new)) }
    ensures failed { OnErr result (Keeps (R.remaining reader.old) (R.remaining reader.new)) }
{
    for _ in 0..MOST_TRIES {
        match reader.read(buf) {
            Err(e) if e.kind() == ErrorKind::Interrupted => {}
            got => return got,
        }
    }
    reader.read(buf)
}

// One read into the bytes from index at on.
fn read_after<R: Read>(reader: &mut R, buf: &mut [u8], at: usize) -> io::Result<usize>
    requires { at < length buf.old }
    ensures bound { IfOk result (λ n. at + n ≤ length buf.old) }
    ensures size { length buf.new ≡ length buf.old }
    ensures kept { take at buf.new ≡ take at buf.old }
    ensures read { IfOk result (λ n. Consumes (R.remaining reader.old) (R.remaining reader.new) (take n (drop at buf.new))) }
    ensures ended { IfOk result (λ n. n ≡ 0 → IsAtEnd (R.remaining reader.new)) }
    ensures failed { OnErr result (Keeps (R.remaining reader.old) (R.remaining reader.new)) }
{
    read_once(reader, &mut buf[at..])
}

// Reads after the bytes that are held until a whole block is there, the input ends or a read fails: how many bytes stand in the buffer
// then, and what can come after them, or why the last read failed. A file fills the buffer at once; a pipe or a terminal gives what
// is at hand, and the lines of that need not wait for more. A number of bytes and no slice, as `read` has it: the buffer is the caller's.
#[tactic(auto, using(crate::proofs::Filling::filled_more, crate::proofs::Filling::shorter_front))]
pub(crate) fn fill<R: Read>(
    reader: &mut R,
    buf: &mut [u8],
    held: usize,
) -> (usize, io::Result<Rest>)
    requires held { held ≤ length buf.old }
    requires room { BLOCK_SIZE ≤ length buf.old }
    ensures bound { (held ≤ result.0) × (result.0 ≤ length buf.old) }
    ensures open { result.1 ≡ Ok Rest.Open → BLOCK_SIZE ≤ result.0 }
    ensures kept { take held buf.new ≡ take held buf.old }
    ensures read { Consumes (R.remaining reader.old) (R.remaining reader.new) (drop held (take result.0 buf.new)) }
    ensures ended { result.1 ≡ Ok Rest.Ended → IsAtEnd (R.remaining reader.new) }
    ensures failed { IsErr result.1 → result.0 < BLOCK_SIZE }
{
    let mut n = held;
    // No count of turns is known, and `read_exact` does not tell how many bytes came before the end.
    while n < BLOCK_SIZE {
        match read_after(reader, buf, n) {
            Ok(0) => return (n, Ok(Rest::Ended)),
            Ok(more) => n += more,
            Err(e) => return (n, Err(e)),
        }
    }
    (n, Ok(Rest::Open))
}
