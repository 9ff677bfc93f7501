// Reading the parts of a probe. A content that ends early is read as if zeros followed.
ghost use Rattle.std.specs.Prelude.{drop, get_or, length, take, ◌≡◌, ◌+◌, ◌-◌, ◌≤◌, ◌<◌};
ghost use Rattle.parts.specs.Pattern.{IsFilled, pattern_byte};

// What is still to be read of a probe's content.
#[derive(Clone, Copy)]
pub struct Reader<'a> {
    rest: &'a [u8],
}

impl<'a> Reader<'a> {
    // All of a content is still to be read.
    pub fn new(content: &'a [u8]) -> Reader<'a>
        ensures { result.rest.now ≡ content.now }
    {
        Reader { rest: content }
    }

    // The next byte, 0 past the end.
    pub fn byte(&mut self) -> u8
        ensures { (result ≡ get_or self.old.rest.now 0 0) × (self.new.rest.now ≡ drop 1 self.old.rest.now) }
    {
        let Some((byte, rest)) = self.rest.split_first() else {
            return 0;
        };
        self.rest = rest;
        *byte
    }

    // As many bytes more as a number needs.
    fn bytes<const N: usize>(&mut self) -> [u8; N]
        ensures { self.new.rest.now ≡ drop N self.old.rest.now }
    {
        let mut bytes = [0; N];
        for byte in bytes.iter_mut() {
            *byte = self.byte();
        }
        bytes
    }

    // A number of eight bytes, high byte first.
    pub fn number(&mut self) -> u64
        ensures { self.new.rest.now ≡ drop 8 self.old.rest.now }
    {
        u64::from_be_bytes(self.bytes())
    }

    // The length that two bytes state, as far as there is room.
    pub fn length(&mut self, room: usize) -> usize
        ensures upper_bound { result ≤ room }
        ensures rest { self.new.rest.now ≡ drop 2 self.old.rest.now }
    {
        usize::from(u16::from_be_bytes(self.bytes())).min(room)
    }

    // The bytes that stand behind their length, as far as the content goes.
    pub fn record(&mut self) -> &'a [u8]
        ensures record { result.now ≡ take (length result.now) (drop 2 self.old.rest.now) }
        ensures rest { self.new.rest.now ≡ drop (2 + length result.now) self.old.rest.now }
    {
        let size = usize::from(u16::from_be_bytes(self.bytes()));
        let (record, rest) = self.rest.split_at(size.min(self.rest.len()));
        self.rest = rest;
        record
    }

    // An image, in a buffer: its length, as far as there is room, and then its bytes packed.
    pub fn image<'b>(&mut self, buffer: &'b mut [u8]) -> &'b mut [u8]
        ensures { length result.now ≤ length buffer.old }
    {
        let size = self.length(buffer.len());
        let image = &mut buffer[..size];
        self.unpack(image);
        image
    }

    // An area, in a buffer: its length, as far as there is room, and then the pattern that it is filled with.
    pub fn area<'b>(mut self, buffer: &'b mut [u8]) -> (&'b mut [u8], Pattern<'a>)
        ensures upper_bound { length result.0.now ≤ length buffer.old }
        ensures filled { IsFilled result.1.0.now result.0.now }
    {
        let length = self.length(buffer.len());
        let area = &mut buffer[..length];
        let pattern = Pattern(self.rest);
        pattern.fill(area);
        (area, pattern)
    }

    // Fills an image with what packed bytes stand for.
    fn unpack(&mut self, image: &mut [u8]) {
        let mut zeros = 0;
        for byte in image.iter_mut() {
            if zeros > 0 {
                zeros -= 1;
                *byte = 0;
            } else {
                *byte = self.byte();
                if *byte == 0 {
                    zeros = rest_of_run(self.byte());
                }
            }
        }
    }
}

// How many zeros follow the first of a run. A count of 0 stands for 256.
fn rest_of_run(count: u8) -> u8
    ensures { (0 < count → result ≡ count - 1) × (count ≡ 0 → result ≡ 255) }
{
    count.wrapping_sub(1)
}

// What an area is filled with, again and again: zeros if there is none.
#[derive(Clone, Copy)]
pub struct Pattern<'a>(&'a [u8]);

impl<'a> Pattern<'a> {
    // Byte i of an area that is filled with the pattern.
    pub fn at(&self, i: usize) -> u8
        ensures { result ≡ pattern_byte self.now.0.now i }
    {
        if self.0.is_empty() {
            return 0;
        }
        self.0[i % self.0.len()]
    }

    // Fills an area.
    pub fn fill(&self, area: &mut [u8])
        ensures { IsFilled self.now.0.now area.new }
    {
        for (i, byte) in area.iter_mut().enumerate() {
            *byte = self.at(i);
        }
    }
}
