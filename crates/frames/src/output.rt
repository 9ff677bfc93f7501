// A program's output: text that waits in a buffer, in bounded memory.
ghost use Rattle.std.specs.Prelude.{[], length, min, ◌∷◌, ◌++◌, ◌≡◌, ◌+◌, ◌≤◌};
ghost use Rattle.frames.specs.Buffers.{line_at};
ghost use Rattle.frames.specs.Coded.{LINE_ROOM, NUMBER_ROOM, Puts};
ghost use Rattle.frames.specs.Program.{bad_frame, decimal as Program·decimal, line_of};

use crate::LINE_ROOM;
use std::fmt;
use std::io::{Stdout, Write};
use std::marker::Model;

// A number has at most this many digits.
const DIGITS: usize = 20;

// The text that waits for standard output, up to `put` in a buffer of at least LEAST bytes: 0 where any buffer does, LINE_ROOM where lines are put into it.
#[derive(Drop)]
pub struct Output<'a, const LEAST: usize> {
    to: Stdout,
    bytes: &'a mut [u8],
    put: usize,
}

impl<'a, const LEAST: usize> Model for Output<'a, LEAST> {
    ghost use Rattle.std.specs.Prelude.{length, ◌≤◌};
    ghost use Rattle.frames.specs.Places.{OutputBuffer};

    ghost Value = { OutputBuffer };

    ghost view = { λ o. record { bytes = o.bytes.now; put = o.put } };

    ghost invariant = { λ o. (o.put ≤ length o.bytes.now) × (LEAST ≤ length o.bytes.now) };
}

impl<'a, const LEAST: usize> Output<'a, LEAST> {
    // An output in whose buffer text waits up to a place, or in all of it.
    pub fn new(to: Stdout, bytes: &'a mut [u8], put: usize) -> Output<'a, LEAST>
        requires { LEAST ≤ length bytes.old }
        ensures { (result.bytes ≡ bytes.old) × (result.put ≡ min put (length bytes.old)) }
    {
        let put = put.min(bytes.len());
        Output { to, bytes, put }
    }

    // Prints what waits. What cannot be written is lost.
    pub fn flush(&mut self)
        ensures { (self.new.put ≡ 0) × (self.new.bytes ≡ self.old.bytes) }
    {
        let mut to = self.to;
        let put = self.put;
        // Tried: `&self.bytes[..put]`. It does not prove that the buffer keeps its bytes.
        let bytes = &mut *self.bytes;
        let (waiting, _) = bytes.split_at(put);
        let _lost = to.write_all(waiting);
        self.put = 0;
    }

    // Makes room for a line: behind what waits, or at the front once that is printed.
    #[tactic(auto, unfolding(crate::specs::Buffers::line_at))]
    pub fn make_room(&mut self)
        requires { LINE_ROOM ≤ LEAST }
        ensures room { self.new.put + LINE_ROOM ≤ length self.new.bytes }
        ensures put { self.new.put ≡ line_at self.old.put (length self.old.bytes) }
        ensures bytes { self.new.bytes ≡ self.old.bytes }
    {
        if self.bytes.len() - self.put < LINE_ROOM {
            self.flush();
        }
    }

    // Puts the line of a request behind what waits.
    pub fn write_line(&mut self, ordinal: u64, number: u8, place: usize, tries: u8, size: u8)
        requires { self.old.put + LINE_ROOM ≤ length self.old.bytes }
        ensures puts { Puts self.old.bytes self.old.put (line_of ordinal number place tries size) self.new.bytes self.new.put }
        ensures upper_bound { self.new.put ≤ self.old.put + LINE_ROOM }
    {
        self.put_number(ordinal, b' ');
        self.put_number(u64::from(number), b' ');
        self.put_number(place as u64, b' ');
        self.put_number(u64::from(tries), b' ');
        self.put_number(u64::from(size), b'\n');
    }

    // Puts the line `bad frame` behind what waits.
    pub fn write_bad_frame(&mut self)
        requires { self.old.put + LINE_ROOM ≤ length self.old.bytes }
        ensures puts { Puts self.old.bytes self.old.put bad_frame self.new.bytes self.new.put }
        ensures upper_bound { self.new.put ≤ self.old.put + LINE_ROOM }
    {
        self.put_text(b"bad frame\n");
    }

    // A number in decimal, and the byte that ends it. No `write!`: what it promises holds only where nothing failed, and `Puts`, under `write_line`, holds always.
    fn put_number(&mut self, n: u64, last: u8)
        requires { self.old.put + NUMBER_ROOM ≤ length self.old.bytes }
        ensures puts { Puts self.old.bytes self.old.put (Program·decimal n ++ (last ∷ [])) self.new.bytes self.new.put }
        ensures upper_bound { self.new.put ≤ self.old.put + NUMBER_ROOM }
        ensures kept { length self.new.bytes ≡ length self.old.bytes }
    {
        let mut digits = [0u8; DIGITS];
        let count = io::decimal(n, &mut digits);
        self.put_text(&digits[..count]);
        self.put_text(&[last]);
    }

    // A text as it is.
    fn put_text(&mut self, text: &[u8])
        requires { self.old.put + length text.now ≤ length self.old.bytes }
        ensures { Puts self.old.bytes self.old.put text.now self.new.bytes self.new.put }
    {
        let from = self.put;
        let end = from + text.len();
        let bytes = &mut *self.bytes;
        bytes[from..end].copy_from_slice(text);
        self.put = end;
    }

    // One byte of a text of any length: a full buffer is printed on the way.
    fn push(&mut self, byte: u8)
        ensures { length self.new.bytes ≡ length self.old.bytes }
    {
        if self.bytes.len() <= self.put {
            self.flush();
        }
        if self.put < self.bytes.len() {
            self.bytes[self.put] = byte;
            self.put += 1;
        }
    }
}

impl<'a, const LEAST: usize> fmt::Write for Output<'a, LEAST> {
    ghost use Rattle.std.specs.Prelude.{IsOk, length, ◌≡◌};

    ghost write_str_gives = { λ o text p. length p.bytes ≡ length o.bytes };

    // A text of any length: it never fails, and the buffer keeps its length.
    fn write_str(&mut self, text: &str) -> fmt::Result
        ensures ok { IsOk result }
        ensures kept { length self.new.bytes ≡ length self.old.bytes }
    {
        for byte in text.as_bytes() {
            self.push(*byte);
        }
        Ok(())
    }
}
