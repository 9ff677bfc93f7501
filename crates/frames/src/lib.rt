// The frames that a program reads and the lines that it prints, over buffers that the caller keeps. A frame with another tag or a content above 4,096 bytes is refused.
#![tactic(auto)]

ghost use Rattle.std.specs.Prelude.{drop, length, take, ◌≡◌, ◌-◌, ◌≤◌};
ghost use Rattle.std.proofs.lemmas.List.Edits.{sets};
ghost use Rattle.frames.specs.Coded.{head_of};

pub mod output; // output.rt: the text that a program prints
pub mod serving; // serving.rt: a run over frames, for any program
pub mod stream; // stream.rt: the frames that a program reads

// A frame begins with this byte.
pub const FRAME_TAG: u8 = 0x40;

// The bytes before a frame's content: the tag, and the length, high byte first.
pub const HEADER: usize = 3;

// A frame's content has at most this many bytes.
pub const LONGEST_FRAME: usize = 4096;

// A line, also `bad frame`, needs at most this many bytes of room.
pub const LINE_ROOM: usize = 128;

// The length of the content of the frame that starts with these three bytes, if they can start one.
#[tactic(auto, unfolding(crate::specs::Coded::head_of))]
pub fn frame_head(tag: u8, high: u8, low: u8) -> Option<usize>
    ensures { result ≡ head_of tag high low }
{
    let size = usize::from(u16::from_be_bytes([high, low]));
    (tag == FRAME_TAG && size <= LONGEST_FRAME).then_some(size)
}

// Moves the bytes from `from` up to `to` to the front of the buffer, and tells how many they are.
pub fn keep_rest(buf: &mut [u8], from: usize, to: usize) -> usize
    requires { (from ≤ to) × (to ≤ length buf.old) }
    ensures { (result ≡ to - from) × (buf.new ≡ sets buf.old 0 (take result (drop from buf.old))) }
{
    buf.copy_within(from..to, 0);
    to - from
}
