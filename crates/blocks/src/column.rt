// Words of a block, a stride of bytes apart.
ghost use Rattle.std.specs.Prelude.{◌+◌, ◌-◌, ◌*◌, ◌≤◌};

// A count of such words, from the byte `start` on. All stand among the bytes that the check is made of.
#[derive(Clone, Copy, Debug, PartialEq, Eq)]
pub(crate) struct Column {
    pub start: u16,
    pub stride: u16,
    pub count: u16,
    ghost within: { start + stride * (count - 1) + 4 ≤ 508 },
    ghost near: { stride ≤ 32 },
    ghost few: { count ≤ 15 },
}
