// What a word spells: bytes in lowercase hexadecimal, or a decimal number.
ghost use Rattle.std.specs.Prelude.{◌*◌, ◌<◌, ◌≤◌, ◌≡◌, length, IfOk};
ghost use Rattle.vectors.specs.declared.spelling.Fault.TheVariants.{OutOfMemory};

use std::alloc::{AllocError, Global};
use std::num::ParseIntError;
use std::str::Utf8Error;

// Why a line has no answer of a call.
#[derive(Clone, Copy)]
pub enum Fault {
    // It is no request.
    BadRequest,
    // There is no memory for its arguments or its answer.
    OutOfMemory(AllocError),
}

impl From<AllocError> for Fault {
    ghost from_gives = { λ e f. f ≡ OutOfMemory e };

    fn from(error: AllocError) -> Fault {
        Fault::OutOfMemory(error)
    }
}

impl From<Utf8Error> for Fault {
    fn from(_: Utf8Error) -> Fault {
        Fault::BadRequest
    }
}

impl From<ParseIntError> for Fault {
    fn from(_: ParseIntError) -> Fault {
        Fault::BadRequest
    }
}

// The value of a lowercase hexadecimal digit.
fn digit(character: u8) -> Result<u8, Fault>
    ensures { IfOk result (λ d. d < 16) }
{
    match character {
        b'0'..=b'9' => Ok(character - b'0'),
        b'a'..=b'f' => Ok(character - b'a' + 10),
        _ => Err(Fault::BadRequest),
    }
}

// The bytes that a word spells: pairs of lowercase digits spell one each, and `-` none.
pub fn decode_bytes(alloc: Global, word: &str) -> Result<Vec<u8>, Fault>
    ensures { IfOk result (λ bytes. 2 * length bytes.items ≤ length word.now) }
{
    if word == "-" {
        return Ok(Vec::new(alloc));
    }
    let (pairs, rest) = word.as_bytes().as_chunks::<2>();
    if pairs.is_empty() || !rest.is_empty() {
        return Err(Fault::BadRequest);
    }
    let mut bytes = vec![in alloc; 0; pairs.len()]?;
    for (byte, [high, low]) in bytes.iter_mut().zip(pairs) {
        *byte = 16 * digit(*high)? + digit(*low)?;
    }
    Ok(bytes)
}

// The number of 64 bits that a word spells: decimal digits, without a sign or a zero in front.
pub fn decode_number(word: &str) -> Result<u64, Fault> {
    match word.as_bytes() {
        [b'0'] | [b'1'..=b'9', ..] => Ok(word.parse()?),
        _ => Err(Fault::BadRequest),
    }
}
