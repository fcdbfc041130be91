// The lines of a report, each formed at the start of a buffer that the caller lends.
#![tactic(auto)]

mod line;
mod parts;

pub use line::{LINE_ROOM, form_end, form_header, form_line};
