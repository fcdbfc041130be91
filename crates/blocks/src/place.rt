// The place of a line in a block.
ghost use Rattle.std.specs.Prelude.{◌≡◌, ◌≤◌, ◌+◌, ◌*◌};

// Where the first line starts, and the bytes from one to the next; and of their divorce debits, which stand after all the lines.
const LINES: usize = 64;

pub(crate) const LINE_SIZE: usize = 72;

const DEBITS: usize = 352;

pub(crate) const DEBIT_SIZE: usize = 24;

// One of the four places, from 0.
#[derive(Clone, Copy, Debug, PartialEq, Eq)]
pub(crate) struct Place {
    pub(crate) index: usize,
    ghost of_four: { index ≤ 3 },
}

impl Place {
    // Where its line starts.
    pub(crate) fn line(self) -> usize
        ensures { result ≡ 64 + self.index * 72 }
    {
        LINES + self.index * LINE_SIZE
    }

    // Where the divorce debit of its line starts.
    pub(crate) fn debit(self) -> usize
        ensures { result ≡ 352 + self.index * 24 }
    {
        DEBITS + self.index * DEBIT_SIZE
    }
}
