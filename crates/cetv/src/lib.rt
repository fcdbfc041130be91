// The entry for the case system, a C program, and the version of the library. include/cetv.h declares both.
#![tactic(auto)]

ghost use Rattle.std.specs.Prelude.{◌≡◌, length};
ghost use Rattle.valuing.specs.Block.{block_answer};
ghost use Rattle.report.specs.Lines.{line_of};
ghost use Rattle.report.specs.Forming.{formed_as, buffer_with};
ghost use Rattle.cetv.specs.Entry.{length_of};
ghost use Rattle.version.specs.Version.{version_number};

use report::form_line;
use valuing::value_block;

/// Reads and values one block, and forms its line at the start of `out`; the answer is the line's length in bytes, or 0 for
/// refusal 15: a C program takes a number, hence no `Result`.
#[unsafe(no_mangle)]
pub extern "C" fn cetv_value_block(block: &[u8], place: u32, out: &mut [u8]) -> usize
    ensures length { result ≡ length_of (formed_as (length out.old) (line_of place (block_answer block.now))) }
    ensures bytes { out.new ≡ buffer_with out.old (line_of place (block_answer block.now)) }
{
    let answer = value_block(block);
    form_line(out, place, answer).unwrap_or(0)
}

/// The version, so that a program can see whether its header and this library belong together.
#[unsafe(no_mangle)]
pub extern "C" fn cetv_version() -> u32
    ensures { result ≡ version_number }
{
    version::version_number()
}
