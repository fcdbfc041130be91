// Lines formed at an index of a buffer that has 256 bytes from there on. An index and no `Text`: a line is formed in the 256 bytes lent
// to it, and a `Text` would show it all that follows.
ghost use Rattle.std.specs.Prelude.{◌≡◌, cond, [], ◌+◌, ◌≤◌, length};
ghost use Rattle.buffers.specs.Text.{Written};
ghost use Rattle.report.specs.Lines.{line_of, end_line};

use crate::Counts;
use answers::Answer;
use report::{LINE_ROOM, form_end, form_line};

// Not one with `put_end` by a closure over a part of `out`: each is one call.
#[tactic(auto, using(crate::proofs::Forming::line_answered, crate::proofs::Forming::line_fits))]
pub(crate) fn put_line(out: &mut [u8], at: usize, place: u32, answer: Answer) -> usize
    requires { at + LINE_ROOM ≤ length out.old }
    ensures written { Written out.old at (line_of place answer) out.new result }
    ensures bound { result ≤ at + LINE_ROOM }
{
    at + form_line(&mut out[at..at + LINE_ROOM], place, answer).unwrap()
}

// The end line, if the run is over. The flag is asked here: asked in `step`, there would be two ways through it, each with its proof.
#[tactic(auto, using(crate::proofs::Forming::line_answered, crate::proofs::Forming::line_fits, crate::proofs::Forming::nothing_written))]
pub(crate) fn put_end(out: &mut [u8], at: usize, counts: Counts, over: bool) -> usize
    requires { at + LINE_ROOM ≤ length out.old }
    ensures { Written out.old at (cond over (end_line counts.blocks counts.paid) []) out.new result }
{
    if over {
        at + form_end(&mut out[at..at + LINE_ROOM], counts.blocks, counts.paid).unwrap()
    } else {
        at
    }
}
