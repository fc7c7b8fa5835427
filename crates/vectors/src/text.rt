// The text of answers: each function puts something behind what the text has so far.
ghost use Rattle.std.specs.Prelude.{◌+◌, ◌*◌, ◌≤◌, ◌≡◌, ◌++◌, length};
ghost use Rattle.std.specs.Prelude.{OnOk, IfOk, string_bytes, codes};

use std::alloc::{AllocError, Global};

// Puts a number, which has at most twenty digits.
fn put_first(text: &mut String, number: u64) -> Result<(), AllocError>
    ensures { OnOk result (length (string_bytes text.new) ≤ length (string_bytes text.old) + 20) }
{
    write!(text, "{number}")
}

// Puts a space and a number.
fn put_next(text: &mut String, number: u64) -> Result<(), AllocError>
    ensures { OnOk result (length (string_bytes text.new) ≤ length (string_bytes text.old) + 21) }
{
    write!(text, " {number}")
}

// Puts numbers, with a space between them.
fn put_numbers(text: &mut String, numbers: &[u64]) -> Result<(), AllocError>
    ensures { OnOk result (length (string_bytes text.new)
        ≤ length (string_bytes text.old) + 21 * length numbers.now) }
{
    if let Some((first, others)) = numbers.split_first() {
        put_first(text, *first)?;
        for number in others {
            put_next(text, *number)?;
        }
    }
    Ok(())
}

// The digits of bytes, two lowercase ones for each.
fn digits_of(alloc: Global, bytes: &[u8]) -> Result<String, AllocError>
    ensures { IfOk result (λ digits. length (string_bytes digits) ≡ 2 * length bytes.now) }
{
    hex::encode(alloc, bytes)
}

// Puts bytes: two lowercase digits for each, or `-` for none.
fn put_bytes(text: &mut String, bytes: &[u8]) -> Result<(), AllocError>
    ensures { OnOk result (length (string_bytes text.new)
        ≤ length (string_bytes text.old) + 2 * length bytes.now + 1) }
{
    if bytes.is_empty() {
        return printing::push(text, "-");
    }
    let digits = digits_of(*text.allocator(), bytes)?;
    printing::push(text, digits.as_str())
}

// Puts the answer to a line that is no request.
pub fn put_bad(text: &mut String) -> Result<(), AllocError>
    ensures { OnOk result (string_bytes text.new ≡ string_bytes text.old ++ codes "bad request\n") }
{
    printing::push(text, "bad request\n")
}

// Puts the line of an answer that lends no bytes.
pub fn put_answer(text: &mut String, numbers: &[u64]) -> Result<(), AllocError>
    ensures { OnOk result (length (string_bytes text.new)
        ≤ length (string_bytes text.old) + 21 * length numbers.now + 1) }
{
    put_numbers(text, numbers)?;
    printing::push(text, "\n")
}

// Puts the line of an answer that lends bytes.
pub fn put_lending(text: &mut String, numbers: &[u64], bytes: &[u8]) -> Result<(), AllocError>
    ensures { OnOk result (length (string_bytes text.new)
        ≤ length (string_bytes text.old) + 21 * length numbers.now + 2 * length bytes.now + 3) }
{
    put_numbers(text, numbers)?;
    printing::push(text, " ")?;
    put_bytes(text, bytes)?;
    printing::push(text, "\n")
}
