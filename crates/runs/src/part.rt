// A part of a block that waits for its rest.
ghost use Rattle.std.specs.Prelude.{◌≡◌, ◌++◌, ◌≤◌, length, drop};

// Moves the bytes from an index on to the start, and answers how many they are.
#[tactic(auto, using(crate::proofs::Parts::part_moved))]
pub(crate) fn keep_from(input: &mut [u8], taken: usize) -> usize
    requires { taken ≤ length input.old }
    ensures answer { result ≡ length (drop taken input.old) }
    ensures bytes { input.new ≡ drop taken input.old ++ drop result input.old }
{
    let end = input.len();
    input.copy_within(taken..end, 0);
    end - taken
}
