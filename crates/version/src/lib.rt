// Which version this is, as a number for a C program and as the line that `values --version` prints.
#![tactic(auto)]

ghost use Rattle.std.specs.Prelude.{◌≡◌, ◌++◌, ◌≤◌, length, drop};
ghost use Rattle.version.specs.Version.{version_number, version_line};

use buffers::Text;

// The first of its three numbers times 10,000, the second times 100, and the third, summed: 1.2.3 is 10203.
const VERSION: u32 = 10000;

/// What the version line is formed in.
pub type Line = [u8; 32];

/// The version as a number: the first of its three numbers times 10,000, the second times 100, and the third, summed.
pub fn version_number() -> u32
    ensures { result ≡ version_number }
{
    VERSION
}

/// Forms the version line at the start of `out`; the answer is its length in bytes.
pub fn form_version(out: &mut Line) -> usize
    ensures answer { result ≡ length version_line }
    ensures bytes { out.new ≡ version_line ++ drop (length version_line) out.old }
    ensures room { result ≤ 32 }
{
    let n = u64::from(VERSION);
    let mut line = Text::new(out, 0);
    line.put(b"values ");
    line.put_decimal(n / 10_000);
    line.put(b".");
    line.put_decimal(n / 100 % 100);
    line.put(b".");
    line.put_decimal(n % 100);
    line.put(b"\n");
    line.length()
}
