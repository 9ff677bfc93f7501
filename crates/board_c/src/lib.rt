// The functions that a C program on the board links: each is the one of its name in crate `board`, and promises the same. A crate is a library or an archive, not both.
#![tactic(auto)]

ghost use Rattle.std.specs.Prelude.{◌≡◌};
ghost use Rattle.archive.specs.AnswerRead.{field_at};
ghost use Rattle.board.specs.Archive.{AnswerTold, FieldTold, RequestTold};
ghost use Rattle.board.specs.Image.{Changed, OwnerTold, StandingTold, empty_image, empty_number, image_owner, image_standing};

// Makes the image of the empty timetable.
#[unsafe(no_mangle)]
pub extern "C" fn tarnflaw_empty(image: &mut [u8]) -> u8
    ensures { (result ≡ empty_number image.old) × (image.new ≡ empty_image image.old) }
{
    board::tarnflaw_empty(image)
}

// The image's timetable is changed by a request, and the answer written to the area; or a refusal leaves every byte of both.
#[unsafe(no_mangle)]
pub extern "C" fn tarnflaw_change(
    image: &mut [u8],
    request: &[u8],
    area: &mut [u8],
    place: &mut usize,
    tries: &mut u8,
    written: &mut usize,
) -> u8
    ensures { Changed image.old request.now area.old result place.new tries.new written.new image.new area.new }
{
    board::tarnflaw_change(image, request, area, place, tries, written)
}

// The owner of a slot, or 255 for idle.
#[unsafe(no_mangle)]
pub extern "C" fn tarnflaw_owner(image: &[u8], slot: u64, place: &mut usize, owner: &mut u8) -> u8
    ensures { OwnerTold (image_owner image.now slot) result place.new owner.new }
{
    board::tarnflaw_owner(image, slot, place, owner)
}

// The shortfall of an id at a slot's start, and the slices it has had from the request slot up to there.
#[unsafe(no_mangle)]
pub extern "C" fn tarnflaw_standing(
    image: &[u8],
    id: u8,
    slot: u64,
    place: &mut usize,
    shortfall: &mut u16,
    slices: &mut u64,
) -> u8
    ensures { StandingTold (image_standing image.now id slot) result place.new shortfall.new slices.new }
{
    board::tarnflaw_standing(image, id, slot, place, shortfall, slices)
}

// What an archived answer says is written to the area; or a refusal leaves every byte of it.
#[unsafe(no_mangle)]
pub extern "C" fn tarnflaw_read_answer(answer: &[u8], area: &mut [u8], place: &mut usize) -> u8
    ensures { AnswerTold answer.now area.old result place.new area.new }
{
    board::tarnflaw_read_answer(answer, area, place)
}

// A request is written to the area; or a refusal leaves every byte of it.
#[unsafe(no_mangle)]
pub extern "C" fn tarnflaw_write_request(
    slot: u64,
    limit: u8,
    listing: &[u8],
    area: &mut [u8],
    place: &mut usize,
    written: &mut usize,
) -> u8
    ensures { RequestTold slot limit listing.now area.old result place.new written.new area.new }
{
    board::tarnflaw_write_request(slot, limit, listing, area, place, written)
}

// What stands at a place of an archived answer. The place moves on behind it, unless nothing is left there or it is refused.
#[unsafe(no_mangle)]
pub extern "C" fn tarnflaw_answer_field(
    answer: &[u8],
    at: &mut usize,
    place: &mut usize,
    tag: &mut u8,
    first: &mut u8,
    second: &mut u8,
) -> u8
    ensures { FieldTold at.old (field_at answer.now at.old) result place.new tag.new first.new second.new at.new }
{
    board::tarnflaw_answer_field(answer, at, place, tag, first, second)
}
