// Values a case file on standard input, and writes its report to standard output: reads what a run wants, takes a step, and writes
// what the step formed. What the steps make of what is read is proved in the crate `runs`, and here that all of it is written.
#![tactic(auto)]

ghost use Rattle.std.specs.Prelude.{◌≡◌, ◌<◌, ◌++◌, ℕ, List, length, IfSome, IsOk, IsErr, OnOk, Ok, Err, MatchResult};
ghost use Rattle.std.specs.declared.io.Error.{Error};
ghost use Rattle.std.specs.Io.{StartsWith};
ghost use Rattle.std.specs.Io.KnownBytes.{Appends, Consumes};
ghost use Rattle.runs.specs.Run.{report_of};
ghost use Rattle.runs.specs.Steps.{Reported};
ghost use Rattle.runs.specs.declared.Counts.{Counts};

mod arguments;
mod failure;
mod input;
mod output;

use arguments::{Request, asked};
use failure::Failure;
use input::{Rest, fill, source_of};
use output::{USAGE, write_version, write_whole};
use runs::{INPUT_SIZE, Input, OUTPUT_SIZE, Output};
use std::io;
use std::io::{Read, Write};
use std::process::ExitCode;

// How often a call that a signal interrupted is made again. Every loop is proved to end, hence a limit; no run comes near it.
const MOST_TRIES: u32 = u32::MAX;

// What came of a read and of the write after it. A read fails before a whole block is there, and nothing is written then.
fn outcome_of(end: io::Result<Rest>, written: io::Result<()>) -> Result<(), Failure>
    ensures ok { OnOk result (IsOk end × IsOk written) }
    ensures input { (error : Error) → result ≡ Err (Failure.Input error) → IsErr end × IsOk written }
    ensures which { MatchResult written (λ _. MatchResult end (λ _. result ≡ Ok tt) (λ error. result ≡ Err (Failure.Input error))) (λ error. result ≡ Err (Failure.Output error)) }
{
    match (end, written) {
        (_, Err(output)) => Err(Failure::Output(output)),
        (Err(input), Ok(())) => Err(Failure::Input(input)),
        (Ok(_), Ok(())) => Ok(()),
    }
}

// Reads the whole file and writes its report, and nothing else. Whatever fails, what was written is the start of that report; before a
// read that failed, the lines of all the whole blocks were written.
fn value_file<R: Read, W: Write>(reader: &mut R, writer: &mut W) -> Result<(), Failure>
    ensures whole { OnOk result (IfSome (R.remaining reader.old) (λ file.
        Appends (W.contents writer.old) (W.contents writer.new) (report_of file))) }
    ensures start { IfSome (R.remaining reader.old) (λ file.
        (written : List ℕ) × StartsWith (report_of file) written
        × Appends (W.contents writer.old) (W.contents writer.new) written) }
    ensures cut { (error : Error) → result ≡ Err (Failure.Input error)
        → (done : List ℕ) × (part : List ℕ) × (counts : Counts) × (written : List ℕ)
        × Consumes (R.remaining reader.old) (R.remaining reader.new) (done ++ part)
        × (length part < 512) × Reported done counts written
        × Appends (W.contents writer.old) (W.contents writer.new) written }
{
    let mut input: Input = [0; INPUT_SIZE];
    let mut out: Output = [0; OUTPUT_SIZE];
    let mut run = runs::start(&mut out);
    let mut outcome = write_whole(writer, &out[..run.length]).map_err(Failure::Output);
    // One way out of the loop, and no `?` in it: with it a block takes 18 in 100 more instructions, as less is inlined.
    while outcome.is_ok() && 0 < run.wanted {
        let (got, end) = fill(reader, &mut input[..run.wanted], run.held);
        run = runs::step(run.counts, &mut input[..got], source_of(&end), &mut out);
        outcome = outcome_of(end, write_whole(writer, &out[..run.length]));
    }
    outcome
}

// One match over what may be asked; each arm writes to another place, so that no function is handed on.
fn main(rt: HostRuntime) -> ExitCode {
    let outcome = match asked(&rt) {
        Request::Report => value_file(&mut rt.stdin(), &mut rt.stdout()),
        Request::Help => write_whole(&mut rt.stdout(), USAGE).map_err(Failure::Output),
        Request::Version => write_version(&mut rt.stdout()).map_err(Failure::Output),
        Request::Unknown => write_whole(&mut rt.stderr(), USAGE).map_err(|_| Failure::Message),
    };
    match outcome {
        Ok(()) => ExitCode::SUCCESS,
        Err(failure) => {
            failure.say(&rt);
            ExitCode::FAILURE
        }
    }
}
