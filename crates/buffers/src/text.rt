// A text under construction in a lent buffer.
ghost use Rattle.std.specs.Prelude.{◌≡◌, length};
ghost use Rattle.buffers.specs.Text.{end_after, text_reference, text_buffer, text_length, Puts};
ghost use Rattle.buffers.specs.Decimal.{decimal, fixed_point};

use crate::digits::{Decimal, fill_fixed_point};

/// A text under construction in a lent buffer: the buffer, and the index up to which it is written so far. What is put there and
/// finds no room for all of it changes no byte, and leaves the index as it is: std's `Cursor` writes as much as there is room for.
#[derive(Debug, Drop)]
pub struct Text<'a> {
    out: &'a mut [u8],
    length: usize,
}

impl<'a> Text<'a> {
    /// A text that is put into a buffer from an index on.
    pub fn new(out: &'a mut [u8], at: usize) -> Text<'a>
        ensures same_reference { text_reference result ≡ out.entry.ghost_name }
        ensures bytes { text_buffer result ≡ out.old }
        ensures length { text_length result ≡ at }
    {
        Text { out, length: at }
    }

    /// The index up to which the buffer is written so far.
    pub fn length(&self) -> usize
        ensures { result ≡ text_length self.now }
    {
        self.length
    }

    // The index after `size` more bytes, if there is room for them.
    fn end_after(&self, size: usize) -> Option<usize>
        ensures { result ≡ end_after (length (text_buffer self.now)) (text_length self.now) size }
    {
        self.length
            .checked_add(size)
            .filter(|end| *end <= self.out.len())
    }

    /// Puts a text after what is written so far, if there is room for all of it.
    #[tactic(auto, unfolding(crate::specs::Text::put_at, crate::specs::Text::put_end))]
    pub fn put(&mut self, text: &[u8])
        ensures { Puts self.old text.now self.new }
    {
        if let Some(end) = self.end_after(text.len()) {
            self.out[self.length..end].copy_from_slice(text);
            self.length = end;
        }
    }

    /// Puts a number there in decimal.
    #[tactic(auto, unfolding(crate::specs::Text::put_at, crate::specs::Text::put_end))]
    pub fn put_decimal(&mut self, n: u64)
        ensures { Puts self.old (decimal n) self.new }
    {
        let number = Decimal::new(n);
        if let Some(end) = self.end_after(number.digits) {
            number.fill(&mut self.out[self.length..end]);
            self.length = end;
        }
    }

    // Inlined with what it calls, since d is known where it is called: without that the C library takes 7 in a hundred more instructions.
    /// Puts there a whole part in decimal, a point and the last `d` digits of `n`. Whether there is room is asked once for all three.
    #[tactic(auto, unfolding(crate::specs::Text::put_at, crate::specs::Text::put_end), using(crate::proofs::Decimal::length_fixed))]
    #[inline(always)]
    pub fn put_fixed_point(&mut self, whole: u64, n: u64, d: u8)
        ensures { Puts self.old (fixed_point whole d n) self.new }
    {
        let whole = Decimal::new(whole);
        let d = usize::from(d);
        if let Some(end) = self.end_after(whole.digits + 1 + d) {
            fill_fixed_point(&mut self.out[self.length..end], whole, n);
            self.length = end;
        }
    }
}
