// The parts of a line that take more than a number: an image and an area.
ghost use Rattle.std.specs.Prelude.{length, ◌≡◌, ◌+◌, ◌%◌, ◌≤◌, ◌<◌};

use crate::reading::Pattern;
use std::fmt;

// A run of zeros that is packed has at most this many.
const LONGEST_RUN: usize = 255;

// An image, packed, in hexadecimal; `-` for no bytes.
#[derive(Clone, Copy)]
pub struct Packed<'a>(pub &'a [u8]);

impl<'a> fmt::Display for Packed<'a> {
    fn fmt<W: fmt::Write>(&self, f: &mut fmt::Formatter<W>) -> fmt::Result {
        if self.0.is_empty() {
            return write!(f, "-");
        }
        let mut rest = self.0;
        // No for loop: a run of zeros tells the place of the next byte.
        while let Some(byte) = rest.first() {
            write_hex(f, *byte)?;
            let zeros = zeros_ahead(rest);
            if zeros > 0 {
                write_hex(f, zeros as u8)?;
            }
            rest = &rest[zeros.max(1)..];
        }
        Ok(())
    }
}

// A byte as two digits in hexadecimal. (By `{:02x}` the probe takes half as many instructions again for its probes.)
fn write_hex<W: fmt::Write>(f: &mut fmt::Formatter<W>, byte: u8) -> fmt::Result {
    f.write_char(char::from(digit(byte / 16)))?;
    f.write_char(char::from(digit(byte)))
}

// The last hexadecimal digit of a number.
fn digit(n: u8) -> u8
    ensures { (n % 16 < 10 → result ≡ 48 + n % 16) × (10 ≤ n % 16 → result ≡ 87 + n % 16) }
{
    let d = n % 16;
    if d < 10 { b'0' + d } else { b'a' + (d - 10) }
}

// How many zeros a run has that begins here: at most 255.
fn zeros_ahead(image: &[u8]) -> usize
    ensures { (result ≤ length image.now) × (result ≤ 255) }
{
    image
        .iter()
        .take(LONGEST_RUN)
        .take_while(|byte| **byte == 0)
        .count()
}

// An area that was filled with a pattern: the bytes up to the last that differs from it, in hexadecimal, then `+` and how many follow.
#[derive(Clone, Copy)]
pub struct Touched<'a> {
    pub area: &'a [u8],
    pub pattern: Pattern<'a>,
}

impl<'a> Touched<'a> {
    // Where the last byte ends that differs from the pattern.
    fn end(&self) -> usize
        ensures { result ≤ length self.now.area.now }
    {
        for (i, byte) in self.area.iter().enumerate().rev() {
            if *byte != self.pattern.at(i) {
                return i + 1;
            }
        }
        0
    }
}

impl<'a> fmt::Display for Touched<'a> {
    fn fmt<W: fmt::Write>(&self, f: &mut fmt::Formatter<W>) -> fmt::Result {
        let (touched, rest) = self.area.split_at(self.end());
        for byte in touched {
            write_hex(f, *byte)?;
        }
        write!(f, "+{}", rest.len())
    }
}
