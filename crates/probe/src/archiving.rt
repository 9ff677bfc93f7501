// The kinds of probe that have no image: reading an answer, writing a request, and a field of an answer.
use frames::LINE_ROOM;
use frames::output::Output;
use parts::printing::Touched;
use parts::reading::Reader;
use std::fmt::{self, Write as _};

// An answer is read into an area of the length and pattern that follow it.
pub fn answer(mut probe: Reader, buffer: &mut [u8], out: &mut Output<LINE_ROOM>) -> fmt::Result {
    let answer = probe.record();
    let (area, pattern) = probe.area(buffer);
    let mut place = 0;
    let number = board::tarnflaw_read_answer(answer, area, &mut place);
    writeln!(out, "answer {number} {place} {}", Touched { area, pattern })
}

// A request is written into an area of the length and pattern that follow its listing.
pub fn request(mut probe: Reader, buffer: &mut [u8], out: &mut Output<LINE_ROOM>) -> fmt::Result {
    let slot = probe.number();
    let limit = probe.byte();
    let listing = probe.record();
    let (area, pattern) = probe.area(buffer);
    let mut place = 0;
    let mut written = 0;
    let number = board::tarnflaw_write_request(
        slot,
        limit,
        listing,
        area,
        &mut place,
        &mut written,
    );
    writeln!(
        out,
        "request {number} {place} {written} {}",
        Touched { area, pattern }
    )
}

// What stands at a place of an answer. The reader's place follows the answer.
pub fn field(mut probe: Reader, out: &mut Output<LINE_ROOM>) -> fmt::Result {
    let answer = probe.record();
    let mut at = probe.number() as usize;
    let mut place = 0;
    let mut tag = 0;
    let mut first = 0;
    let mut second = 0;
    let number = board::tarnflaw_answer_field(
        answer,
        &mut at,
        &mut place,
        &mut tag,
        &mut first,
        &mut second,
    );
    writeln!(out, "field {number} {place} {tag} {first} {second} {at}")
}
