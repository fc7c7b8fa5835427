// The text that a program prints: each function puts bytes at a position, and returns the one behind them.
#![tactic(auto)]

ghost use Rattle.std.specs.Prelude.{◌+◌, ◌-◌, ◌≤◌, ◌≡◌, ◌∷◌, length};
ghost use Rattle.std.proofs.lemmas.List.Edits.{sets};
ghost use Rattle.io.specs.Digits.{last_digits, IsDigitCount};

mod growing;

pub use growing::{push, push_decimal, push_spaced};

// Puts bytes as they are.
pub fn put(text: &mut [u8], at: usize, bytes: &[u8]) -> usize
    requires { at + length bytes.now ≤ length text.old }
    ensures { (result ≡ at + length bytes.now)
        × (text.new ≡ sets text.old at bytes.now) }
{
    let end = at + bytes.len();
    text[at..end].copy_from_slice(bytes);
    end
}

// Puts a number in decimal, in as few digits as hold it, of which there are at most twenty.
pub fn put_decimal(text: &mut [u8], at: usize, n: u64) -> usize
    requires { at + 20 ≤ length text.old }
    ensures { (at ≤ result) × (result ≤ at + 20) × IsDigitCount 10 1 n (result - at)
        × (text.new ≡ sets text.old at (last_digits 10 (result - at) n)) }
{
    let mut spelled = [0u8; 20];
    let count = io::decimal(n, &mut spelled);
    put(text, at, &spelled[..count])
}

// Puts a space, whose code is 32, and a number in decimal.
pub fn put_spaced(text: &mut [u8], at: usize, n: u64) -> usize
    requires { at + 21 ≤ length text.old }
    ensures { (at + 1 ≤ result) × (result ≤ at + 21) × IsDigitCount 10 1 n (result - (at + 1))
        × (text.new ≡ sets text.old at (32 ∷ last_digits 10 (result - (at + 1)) n)) }
{
    let spaced = put(text, at, b" ");
    put_decimal(text, spaced, n)
}
