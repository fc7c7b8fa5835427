// The lines of an input, which may be of any length.
use std::io::{BufRead, Read};

// A line of so many bytes is too long: 8,300 bytes of recording, 8,300 of pattern and 65,600 of output, which
// is more than any call needs, take 164,400 digits.
pub const TOO_LONG: usize = 180000;

// What ended the reading of a line.
#[derive(Clone, Copy, PartialEq, Eq)]
pub enum Ending {
    LineFeed,
    TooLong,
    Input,
}

// Reads a line in place of what `line` has: up to a line feed, which is not kept, to the end of the input or
// a read that fails, or until it is too long. It has to have room for so many bytes, so only a read can fail.
pub fn read_line(reader: &mut impl BufRead, line: &mut Vec<u8>) -> Ending {
    line.clear();
    let mut front = reader.by_ref().take(TOO_LONG as u64);
    let _ = front.read_until(b'\n', line);
    if line.last() == Some(&b'\n') {
        line.pop();
        Ending::LineFeed
    } else if line.len() < TOO_LONG {
        Ending::Input
    } else {
        Ending::TooLong
    }
}

// Skips the rest of a line that was too long.
pub fn skip_line(reader: &mut impl BufRead, line: &mut Vec<u8>) -> Ending {
    for _ in 0..u64::MAX {
        let ending = read_line(reader, line);
        if ending != Ending::TooLong {
            return ending;
        }
    }
    Ending::Input
}
