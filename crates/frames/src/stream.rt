// The frames that a program reads from standard input, in bounded memory.
ghost use Rattle.std.specs.Prelude.{None, length, ltb, take, ◌≡◌, ◌+◌, ◌-◌, ◌≤◌};
ghost use Rattle.frames.specs.Buffers.{AheadInside, Awaited, Waits, behind, content_of, line_at, next_of, unread};
ghost use Rattle.frames.specs.Coded.{LINE_ROOM};

use crate::output::Output;
use crate::{HEADER, LINE_ROOM};
use std::io::{Read, Stdin};
use std::marker::Model;

// What was read from standard input into a buffer: between two places of it stands what is unread.
#[derive(Drop)]
pub struct Input<'a> {
    source: Stdin,
    bytes: &'a mut [u8],
    from: usize,
    to: usize,
}

impl<'a> Model for Input<'a> {
    ghost use Rattle.std.specs.Prelude.{length, ◌≤◌};
    ghost use Rattle.frames.specs.Places.{InputBuffer};

    ghost Value = { InputBuffer };

    ghost view = { λ i. record { bytes = i.bytes.now; from = i.from; to = i.to } };

    ghost invariant = { λ i. (i.from ≤ i.to) × (i.to ≤ length i.bytes.now) };
}

// What stands next in the input: a whole frame with that much content, a part of one, or none.
#[derive(Clone, Copy)]
enum Next {
    Frame(usize),
    Part,
    Bad,
}

impl<'a> Input<'a> {
    // An input in whose buffer the bytes between two places are read and not used.
    pub fn new(source: Stdin, bytes: &'a mut [u8], from: usize, to: usize) -> Input<'a>
        requires { (from ≤ to) × (to ≤ length bytes.old) }
        ensures { (result.bytes ≡ bytes.old) × (result.from ≡ from) × (result.to ≡ to) }
    {
        Input {
            source,
            bytes,
            from,
            to,
        }
    }

    // What stands next.
    fn ahead(&self) -> Next
        ensures next { result ≡ next_of (unread self.now) }
        ensures held { (self.now.from ≤ self.now.to) × (self.now.to ≤ length self.now.bytes) }
    {
        let there = self.to - self.from;
        if there < HEADER {
            return Next::Part;
        }
        let at = self.from;
        match crate::frame_head(self.bytes[at], self.bytes[at + 1], self.bytes[at + 2]) {
            Some(size) if size <= there - HEADER => Next::Frame(size),
            Some(_) => Next::Part,
            None => Next::Bad,
        }
    }

    // The content of the frame ahead.
    pub fn content(&self, size: usize) -> &[u8]
        requires { self.now.from + 3 + size ≤ self.now.to }
        ensures { result.now ≡ content_of self.now size }
    {
        let start = self.from + HEADER;
        &self.bytes[start..start + size]
    }

    // Goes on behind the frame ahead.
    pub fn pass(&mut self, size: usize)
        requires { self.old.from + 3 + size ≤ self.old.to }
        ensures { self.new ≡ behind self.old size }
    {
        let start = self.from + HEADER;
        self.from = start + size;
    }

    // What is unread moves to the front, and more is read once behind it; tells how many bytes came. A read that fails ends the input.
    fn read_behind(&mut self) -> usize
        ensures front { (self.new.from ≡ 0) × (self.new.to ≡ self.old.to - self.old.from + result) }
        ensures bytes { (length self.new.bytes ≡ length self.old.bytes) × (self.new.to ≤ length self.new.bytes) }
        ensures kept { take (self.old.to - self.old.from) self.new.bytes ≡ unread self.old }
    {
        let from = self.from;
        let to = self.to;
        let bytes = &mut *self.bytes;
        let kept = crate::keep_rest(bytes, from, to);
        let got = self.source.read(&mut bytes[kept..]).unwrap_or(0);
        self.from = 0;
        self.to = kept + got;
        got
    }
}

// Waits until a whole frame stands ahead, with room for a line in the output, and tells the length of its content; none if the input is over.
// While a part of one stands ahead, what waits is printed, and more input is read behind the part.
pub fn next_frame(input: &mut Input, out: &mut Output<LINE_ROOM>) -> Option<usize>
    ensures inside { AheadInside result input.new out.new }
    ensures awaited { Awaited input.old out.old input.new out.new result }
    ensures kept { length input.new.bytes ≡ length input.old.bytes }
{
    loop {
        match input.ahead() {
            Next::Frame(size) => {
                out.make_room();
                return Some(size);
            }
            Next::Bad => return ended(input, out),
            Next::Part => {
                out.flush();
                if input.read_behind() == 0 {
                    return ended(input, out);
                }
            }
        }
    }
}

// The input is over: no frame stands ahead, and if something is left, `bad frame` is put into the output.
fn ended(input: &Input, out: &mut Output<LINE_ROOM>) -> Option<usize>
    ensures none { result ≡ None }
    ensures waits { Waits (ltb 0 (input.now.to - input.now.from)) (line_at out.old.put (length out.old.bytes)) out.old.bytes out.new.bytes out.new.put }
{
    out.make_room();
    if input.from < input.to {
        out.write_bad_frame();
    }
    None
}
