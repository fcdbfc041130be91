// What failed, and how it is said on standard error.
use std::io::{Cursor, Eprint, ErrorKind, Write};
use std::{io, str};

// Why the program did not do all that it was asked.
#[derive(Debug, Drop)]
pub(crate) enum Failure {
    Input(io::Error),
    Output(io::Error),
    // Of standard error itself, so that there is nowhere to say it.
    Message,
}

impl Failure {
    pub(crate) fn say(&self, rt: &impl Eprint) {
        match self {
            Failure::Input(e) => say(rt, "standard input", e),
            Failure::Output(e) => say(rt, "standard output", e),
            Failure::Message => {}
        }
    }
}

// What failed and why, in the system's words without their number, as far as the buffer holds them; a write that took nothing has
// none.
fn say(rt: &impl Eprint, what: &str, error: &io::Error) {
    if error.kind() == ErrorKind::WriteZero {
        let _ = eprintln!(rt; "{what}: nothing more is taken");
        return;
    }
    let mut text = Cursor::new([0u8; 128]);
    let _ = write!(text, "{error}");
    // `as` loses nothing: the position is at most 128.
    let words = text
        .get_ref()
        .get(..text.position() as usize)
        .unwrap_or(&[]);
    let words = str::from_utf8(words).unwrap_or("");
    let words = words
        .split_once(" (os error")
        .map_or(words, |(before, _)| before);
    let _ = eprintln!(rt; "{what}: {words}");
}
