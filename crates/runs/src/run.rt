// The steps of a run. Between them the caller writes what a step put into the buffer, and reads what it wants next.
ghost use Rattle.std.specs.Prelude.{◌≡◌, [], ◌++◌, ◌+◌, ◌%◌, ◌≤◌, ◌<◌, min, length, take, drop};
ghost use Rattle.report.specs.Lines.{header};
ghost use Rattle.runs.specs.Run.{left, wanted_after};
ghost use Rattle.runs.specs.Steps.{bytes_taken, wanted_unless, ends, came, start_of, step_of, chunk, waiting_part, step_text, Reported, Continues};

use crate::chunk::put_lines;
use crate::line::put_end;
use crate::part::keep_from;
use crate::{BLOCK_SIZE, Counts, INPUT_SIZE, Output, Progress, Source};
use report::form_header;

// After so many blocks no more are read.
const LIMIT: u32 = 1000000;

impl Counts {
    // How many bytes the next step takes at most. Counts of more paid than read are no run's. `as` loses nothing, as `usize` has 64 bits;
    // `try_from` would want an answer to an error that cannot be.
    fn wanted(self) -> usize
        ensures { result ≡ wanted_after self }
    {
        if self.paid <= self.blocks {
            (LIMIT.saturating_sub(self.blocks) as usize * BLOCK_SIZE).min(INPUT_SIZE)
        } else {
            0
        }
    }
}

impl Source {
    // How many of n bytes a step takes: a last part of a block counts only where the file has ended.
    fn bytes_taken(self, n: usize) -> usize
        ensures value { result ≡ bytes_taken self n }
        ensures bound { result ≤ n }
    {
        match self {
            Source::Ended => n,
            Source::Open | Source::Failed => n - n % BLOCK_SIZE,
        }
    }

    fn wanted(self, after: Counts) -> usize
        ensures { result ≡ wanted_unless self after }
    {
        match self {
            Source::Open => after.wanted(),
            Source::Ended | Source::Failed => 0,
        }
    }

    // Whether the end line follows.
    fn ends(self, wanted: usize) -> bool
        ensures { result ≡ ends self wanted }
    {
        match self {
            Source::Open => wanted == 0,
            Source::Ended => true,
            Source::Failed => false,
        }
    }
}

/// Starts a run: the header is to be written, and the first chunk to be read.
#[tactic(auto, using(crate::proofs::Forming::line_formed, crate::proofs::Forming::line_stands, crate::proofs::Reports::reported_none))]
pub fn start(out: &mut Output) -> Progress
    ensures answer { result ≡ start_of }
    ensures bytes { out.new ≡ header ++ drop result.length out.old }
    ensures file { Reported [] result.counts (take result.length out.new) }
{
    Progress {
        counts: Counts::default(),
        wanted: INPUT_SIZE,
        held: 0,
        length: form_header(out).unwrap(),
    }
}

/// Continues a run with the bytes of `input`, the part of a block that was held among them. A last part of a block waits at the start of
/// `input` for its rest, which the caller reads in after it; where a read failed it stands there too, and no step follows; where the file
/// has ended it counts as a block, and `input` keeps its bytes. The counts alone, and no struct of the run: any counts and any bytes are
/// answered, whoever made them.
pub fn step(counts: Counts, input: &mut [u8], source: Source, out: &mut Output) -> Progress
    ensures answer { result ≡ step_of counts input.old source }
    ensures bytes { out.new ≡ step_text counts input.old source ++ drop result.length out.old }
    ensures file { Continues counts input.old source result (take result.length out.new) }
    ensures part { input.new ≡ waiting_part counts input.old source ++ drop result.held input.old }
    ensures all { chunk counts input.old source ++ take result.held input.new
        ≡ came counts input.old }
    ensures room { ((result.wanted ≤ 65536) × (result.wanted % 512 ≡ 0)) × ((result.held < 512) × (result.length ≤ 33024)) }
    ensures less { (source ≡ Source.Open → 512 ≤ length input.old) → left result.counts + min 1 result.wanted ≤ left counts }
{
    let end = input.len().min(counts.wanted());
    let taken = source.bytes_taken(end);
    let lines = put_lines(&input[..taken], counts, out);
    let wanted = source.wanted(lines.counts);
    let length = put_end(out, lines.length, lines.counts, source.ends(wanted));
    let held = keep_from(&mut input[..end], taken);
    Progress {
        counts: lines.counts,
        wanted,
        held,
        length,
    }
}
