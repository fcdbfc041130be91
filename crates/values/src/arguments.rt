// What the program is asked by its arguments. Without one it values the case file on standard input.
ghost use Rattle.std.specs.Prelude.{◌≡◌, ◌≢◌, ◌↔◌, codes};

use std::env::{Env, FillError};

#[derive(Clone, Copy, Debug, PartialEq, Eq)]
pub(crate) enum Request {
    Report,
    Help,
    Version,
    Unknown,
}

fn asked_by(word: &[u8]) -> Request
    ensures help { (word.now ≡ codes "--help") ↔ (result ≡ Request.Help) }
    ensures version { (word.now ≡ codes "--version") ↔ (result ≡ Request.Version) }
    ensures report { result ≢ Request.Report }
{
    match word {
        b"--help" => Request::Help,
        b"--version" => Request::Version,
        _ => Request::Unknown,
    }
}

// A buffer and how much of it is filled, as `arg` has it, without memory of its own. An argument that does not fit is not known either.
pub(crate) fn asked(rt: &impl Env) -> Request {
    let mut word = [0u8; 16];
    match rt.arg(2, &mut word) {
        Err(FillError::NotPresent) => {}
        Ok(_) | Err(FillError::TooLong) => return Request::Unknown,
    }
    match rt.arg(1, &mut word) {
        Ok(n) => asked_by(&word[..n]),
        Err(FillError::TooLong) => Request::Unknown,
        Err(FillError::NotPresent) => Request::Report,
    }
}
