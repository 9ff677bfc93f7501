// The library as a C program on the board calls it. A timetable is an image of 337 bytes, and each function returns a number of docs/RULES.md 7.1.
#![tactic(auto)]

ghost use Rattle.std.specs.Prelude.{◌≡◌};
ghost use Rattle.archive.specs.AnswerRead.{field_at};
ghost use Rattle.board.specs.Archive.{AnswerTold, FieldTold, RequestTold};
ghost use Rattle.board.specs.Image.{Changed, OwnerTold, StandingTold, empty_image, empty_number, image_owner, image_standing};

use archive::{AnswerField, Schedule};
use change::queries::{owner_query, standing_query};
use numbers::Refusal;
use records::write::{LENGTH_TAG, OFFSET_TAG, OWNERS_TAG, write_answer};
use slots::CoreSlot;
use timetable::Timetable;

mod image; // image.rt: reading and writing an image
mod schedule; // schedule.rt: writing what an answer says

// An image has this many bytes. Fewer or more are no sound timetable.
pub const IMAGE: usize = 337;

// A schedule has this many bytes. An area of fewer is too small to read an answer into.
pub const SCHEDULE: usize = 129;

// Makes the image of the empty timetable.
pub fn tarnflaw_empty(image: &mut [u8]) -> u8
    ensures { (result ≡ empty_number image.old) × (image.new ≡ empty_image image.old) }
{
    let Some(image) = image.as_mut_array() else {
        return Refusal::NOT_SOUND;
    };
    image::put_image(image, &Timetable::empty());
    Refusal::ACCEPTED
}

// The image's timetable is changed by a request, and the answer written to the area; or a refusal leaves every byte of both.
pub fn tarnflaw_change(
    image: &mut [u8],
    request: &[u8],
    area: &mut [u8],
    place: &mut usize,
    tries: &mut u8,
    written: &mut usize,
) -> u8
    ensures { Changed image.old request.now area.old result place.new tries.new written.new image.new area.new }
{
    *place = 0;
    *tries = 0;
    *written = 0;
    let Some(image) = image.as_mut_array() else {
        return Refusal::NOT_SOUND;
    };
    let mut t = Timetable::empty();
    image::read_image(image, &mut t);
    match change::decided(&mut t, request, area.len()) {
        Ok(searched) => {
            image::put_image(image, &t);
            *tries = searched;
            *written = write_answer(area, &t);
            Refusal::ACCEPTED
        }
        Err(refused) => {
            *place = refused.refusal.place;
            *tries = refused.tries;
            refused.refusal.number
        }
    }
}

// The owner of a slot, or 255 for idle.
pub fn tarnflaw_owner(image: &[u8], slot: u64, place: &mut usize, owner: &mut u8) -> u8
    ensures { OwnerTold (image_owner image.now slot) result place.new owner.new }
{
    *place = 0;
    *owner = 0;
    let Some(image) = image.as_array() else {
        return Refusal::NOT_SOUND;
    };
    let mut t = Timetable::empty();
    image::read_image(image, &mut t);
    let a = owner_query(&t, CoreSlot(slot));
    *place = a.place;
    *owner = a.owner;
    a.number
}

// The shortfall of an id at a slot's start, and the slices it has had from the request slot up to there.
pub fn tarnflaw_standing(
    image: &[u8],
    id: u8,
    slot: u64,
    place: &mut usize,
    shortfall: &mut u16,
    slices: &mut u64,
) -> u8
    ensures { StandingTold (image_standing image.now id slot) result place.new shortfall.new slices.new }
{
    *place = 0;
    *shortfall = 0;
    *slices = 0;
    let Some(image) = image.as_array() else {
        return Refusal::NOT_SOUND;
    };
    let mut t = Timetable::empty();
    image::read_image(image, &mut t);
    let a = standing_query(&t, id, CoreSlot(slot));
    *place = a.place;
    *shortfall = a.shortfall;
    *slices = a.slices.0;
    a.number
}

// What an archived answer says is written to the area; or a refusal leaves every byte of it.
pub fn tarnflaw_read_answer(answer: &[u8], area: &mut [u8], place: &mut usize) -> u8
    ensures { AnswerTold answer.now area.old result place.new area.new }
{
    let mut x = Schedule::empty();
    match archive::reader::read_into(answer, &mut x) {
        Err(refusal) => {
            *place = refusal.place;
            refusal.number
        }
        Ok(_) => {
            *place = 0;
            if area.len() < SCHEDULE {
                return Refusal::SMALL_AREA;
            }
            schedule::put_schedule(area, &x);
            Refusal::ACCEPTED
        }
    }
}

// A request is written to the area; or a refusal leaves every byte of it.
pub fn tarnflaw_write_request(
    slot: u64,
    limit: u8,
    listing: &[u8],
    area: &mut [u8],
    place: &mut usize,
    written: &mut usize,
) -> u8
    ensures { RequestTold slot limit listing.now area.old result place.new written.new area.new }
{
    match archive::writer::write_request(CoreSlot(slot), limit, listing, area) {
        Ok(size) => {
            *place = 0;
            *written = size;
            Refusal::ACCEPTED
        }
        Err(refusal) => {
            *place = refusal.place;
            *written = 0;
            refusal.number
        }
    }
}

// What stands at a place of an archived answer. The place moves on behind it, unless nothing is left there or it is refused.
pub fn tarnflaw_answer_field(
    answer: &[u8],
    at: &mut usize,
    place: &mut usize,
    tag: &mut u8,
    first: &mut u8,
    second: &mut u8,
) -> u8
    ensures { FieldTold at.old (field_at answer.now at.old) result place.new tag.new first.new second.new at.new }
{
    *place = 0;
    *tag = 0;
    *first = 0;
    *second = 0;
    let step = match archive::answer::field_at(answer, *at) {
        Ok(Some(step)) => step,
        Ok(None) => return Refusal::ACCEPTED,
        Err(refusal) => {
            *place = refusal.place;
            return refusal.number;
        }
    };
    *at = step.next;
    match step.field {
        AnswerField::Length(n) => {
            *tag = LENGTH_TAG;
            *first = n;
            Refusal::ACCEPTED
        }
        AnswerField::Owners(n) => {
            *tag = OWNERS_TAG;
            *first = n;
            Refusal::ACCEPTED
        }
        AnswerField::Offset(id, offset) => {
            *tag = OFFSET_TAG;
            *first = id;
            *second = offset;
            Refusal::ACCEPTED
        }
    }
}
