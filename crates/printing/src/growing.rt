// A text that grows: each function pushes something behind what it has so far, or finds no memory for that.
ghost use Rattle.std.specs.Prelude.{◌≡◌, ◌++◌, ◌∷◌, OnOk, OnErr, string_bytes, decimal};

use std::alloc::AllocError;

// Pushes words as they are.
pub fn push(text: &mut String, words: &str) -> Result<(), AllocError>
    ensures ok { OnOk result (string_bytes text.new ≡ string_bytes text.old ++ words.now) }
    ensures err { OnErr result (string_bytes text.new ≡ string_bytes text.old) }
{
    text.push_str(words)
}

// Pushes a number in decimal, in as few digits as hold it.
pub fn push_decimal(text: &mut String, n: u64) -> Result<(), AllocError>
    ensures ok { OnOk result (string_bytes text.new ≡ string_bytes text.old ++ decimal n) }
    ensures err { OnErr result (string_bytes text.new ≡ string_bytes text.old) }
{
    let digits = n.to_string(*text.allocator())?;
    text.push_str(digits.as_str())
}

// Pushes a space, whose code is 32, and a number in decimal.
pub fn push_spaced(text: &mut String, n: u64) -> Result<(), AllocError>
    ensures ok { OnOk result (string_bytes text.new ≡ string_bytes text.old ++ 32 ∷ decimal n) }
    ensures err { OnErr result (string_bytes text.new ≡ string_bytes text.old) }
{
    let spaced = format!(in *text.allocator(); " {n}")?;
    text.push_str(spaced.as_str())
}
