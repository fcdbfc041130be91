// The checksum of a block taken a byte at a time: for the benchmark alone, which times the check by words against it.
ghost use Rattle.std.specs.Prelude.{◌≡◌, ◌+◌, ◌*◌, ◌<◌, ◌≤◌};
ghost use Rattle.blocks.specs.Block.{checksum, checksum_or_zero};

// What a byte adds to the check, at an index below 508: `as` loses nothing, and `try_from` would give an error that cannot be. With
// `(1..).zip` in place of `enumerate` the loop would need an invariant over what is left of the two.
fn byte_term(index: usize, byte: u8) -> u32
    requires { index < 508 }
    ensures { (result ≡ (index + 1) * byte) × (result ≤ 129540) }
{
    (index as u32 + 1) * u32::from(byte)
}

fn sum_bytes(bytes: &[u8; 508]) -> u32
    ensures { result ≡ checksum bytes.now }
{
    let mut sum = 0;
    for (index, &byte) in bytes.iter().enumerate() {
        sum += byte_term(index, byte);
    }
    sum
}

/// The checksum that a block of these bytes must hold; 0 where there are fewer than 508.
#[tactic(auto, using(blocks::proofs::Words::checksum_short, blocks::proofs::Words::checksum_first))]
#[unsafe(no_mangle)]
pub extern "C" fn stages_check_by_bytes(block: &[u8]) -> u32
    ensures { result ≡ checksum_or_zero block.now }
{
    block.first_chunk().map_or(0, sum_bytes)
}
