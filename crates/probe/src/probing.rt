// What answers probes, and the kinds of probe that have an image: each calls its entry point of the library and prints what came back. The others are in archiving.rt.
use crate::archiving;
use crate::kinds::Kind;
use frames::LINE_ROOM;
use frames::output::Output;
use frames::serving::Answerer;
use parts::printing::{Packed, Touched};
use parts::reading::Reader;
use std::fmt::{self, Write as _};
use std::marker::Model;

// The buffers in which probes put their image and their area. Nothing in them is left from one probe to the next.
#[derive(Drop)]
pub struct Prober<'a> {
    image: &'a mut [u8],
    area: &'a mut [u8],
}

impl<'a> Model for Prober<'a> {
    ghost Value = { Unit {0} };

    ghost view = { λ p. tt };
}

impl<'a> Answerer for Prober<'a> {
    ghost use Rattle.std.specs.Prelude.{◌-◌, ◌^◌};
    ghost use Rattle.probe.specs.Probes.{Printed, Told};

    ghost gives = { Told };

    ghost puts = { Printed };

    ghost left = { λ p. 2 ^ 64 - 1 };

    // A probe is answered by its line. (Writing to the output does not fail.)
    fn answer(&mut self, content: &[u8], out: &mut Output<LINE_ROOM>) {
        let _written = self.line(Reader::new(content), out);
    }
}

impl<'a> Prober<'a> {
    // Probes are put into these buffers.
    pub fn new(image: &'a mut [u8], area: &'a mut [u8]) -> Prober<'a> {
        Prober { image, area }
    }

    // The line of a probe.
    fn line(&mut self, mut probe: Reader, out: &mut Output<LINE_ROOM>) -> fmt::Result {
        match Kind::try_from(probe.byte()) {
            Ok(Kind::Change) => change(probe, self.image, self.area, out),
            Ok(Kind::Owner) => owner(probe, self.image, out),
            Ok(Kind::Standing) => standing(probe, self.image, out),
            Ok(Kind::Empty) => empty(probe, self.image, out),
            Ok(Kind::Answer) => archiving::answer(probe, self.area, out),
            Ok(Kind::Request) => archiving::request(probe, self.area, out),
            Ok(Kind::Field) => archiving::field(probe, out),
            Err(_) => writeln!(out, "bad probe"),
        }
    }
}

// A request on the image, with an area of the length and pattern that follow it.
fn change(
    mut probe: Reader,
    image: &mut [u8],
    area: &mut [u8],
    out: &mut Output<LINE_ROOM>,
) -> fmt::Result {
    let image = probe.image(image);
    let request = probe.record();
    let (area, pattern) = probe.area(area);
    let mut place = 0;
    let mut tries = 0;
    let mut written = 0;
    let number = board::tarnflaw_change(image, request, area, &mut place, &mut tries, &mut written);
    let image = Packed(image);
    write!(out, "change {number} {place} {tries} {written} {image} ")?;
    writeln!(out, "{}", Touched { area, pattern })
}

// The owner query on the image.
fn owner(mut probe: Reader, image: &mut [u8], out: &mut Output<LINE_ROOM>) -> fmt::Result {
    let image = probe.image(image);
    let slot = probe.number();
    let mut place = 0;
    let mut owner = 0;
    let number = board::tarnflaw_owner(image, slot, &mut place, &mut owner);
    writeln!(out, "owner {number} {place} {owner}")
}

// The standing query on the image.
fn standing(mut probe: Reader, image: &mut [u8], out: &mut Output<LINE_ROOM>) -> fmt::Result {
    let image = probe.image(image);
    let id = probe.byte();
    let slot = probe.number();
    let mut place = 0;
    let mut shortfall = 0;
    let mut slices = 0;
    let number = board::tarnflaw_standing(image, id, slot, &mut place, &mut shortfall, &mut slices);
    writeln!(out, "standing {number} {place} {shortfall} {slices}")
}

// The image of the empty timetable.
fn empty(mut probe: Reader, image: &mut [u8], out: &mut Output<LINE_ROOM>) -> fmt::Result {
    let image = probe.image(image);
    let number = board::tarnflaw_empty(image);
    writeln!(out, "empty {number} {}", Packed(image))
}
