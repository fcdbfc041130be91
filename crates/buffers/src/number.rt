// Bytes at an index, of any number.
ghost use Rattle.std.specs.Prelude.{◌≡◌};
ghost use Rattle.buffers.specs.Bytes.{part_at, bytes_at, number_at, number_from_le_bytes};

// The N bytes from an index on, if they all stand in b.
#[tactic(auto, unfolding(crate::specs::Bytes::part_at))]
fn part_at<const N: usize>(b: &[u8], at: usize) -> Option<[u8; N]>
    ensures { result ≡ part_at N b.now at }
{
    b.get(at..)?.first_chunk().copied()
}

/// The `N` bytes of `b` from index `at` on; zeros where they do not all stand in it. The `from_le_bytes` of an integer type of `N`
/// bytes makes of them the number that stands there, low byte first.
#[tactic(auto, unfolding(crate::specs::Bytes::bytes_at), using(crate::proofs::Bytes::number_of_bytes))]
pub fn bytes_at<const N: usize>(b: &[u8], at: usize) -> [u8; N]
    ensures bytes { result ≡ bytes_at N b.now at }
    ensures number { number_from_le_bytes N result ≡ number_at N b.now at }
{
    part_at(b, at).unwrap_or([0; N])
}
