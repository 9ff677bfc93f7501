// Writing the 129 bytes of a schedule, in the order of docs/RULES.md 10.6. Nothing here is refused.
ghost use Rattle.std.specs.Prelude.{length, map, ◌≡◌, ◌≤◌};
ghost use Rattle.std.proofs.lemmas.List.Edits.{sets};
ghost use Rattle.slots.specs.Limits.{IDS};
ghost use Rattle.board.specs.Archive.{LISTED_AT, OFFSETS_AT, SCHEDULE, listed_byte, offset_byte, schedule_bytes};

use crate::SCHEDULE;
use archive::Schedule;
use timetable::Timetable;

// The place of the owners.
const OWNERS_AT: usize = 1;

// The place of what says whether each id is listed.
const LISTED_AT: usize = 65;

// The place of the offsets.
const OFFSETS_AT: usize = 97;

// Writes a schedule at the start of the area: the length, the owners, for each id 1 if it is listed and else 0, and its offset.
pub fn put_schedule(area: &mut [u8], x: &Schedule)
    requires { SCHEDULE ≤ length area.old }
    ensures { area.new ≡ sets area.old 0 (schedule_bytes x.now) }
{
    area[0] = x.length;
    area[OWNERS_AT..LISTED_AT].copy_from_slice(&x.owners);
    put_listed(area, &x.offsets);
    put_offsets(area, &x.offsets);
}

// Writes for each id 1 if it is listed, and else 0. (By index, here and below: with an array that `map` makes, reading an answer takes three times as many instructions. And a pass for each: in one, the
// bytes are put one by one, which takes as many again as reading an answer of no id.)
fn put_listed(area: &mut [u8], offsets: &[Option<u8>; Timetable::IDS])
    requires { SCHEDULE ≤ length area.old }
    ensures listed { area.new ≡ sets area.old LISTED_AT (map listed_byte offsets.now) }
    ensures ids { length offsets.now ≡ IDS }
{
    for id in 0..Timetable::IDS {
        area[LISTED_AT + id] = u8::from(offsets[id].is_some());
    }
}

// Writes the offset of each id, and 0 if it is not listed.
fn put_offsets(area: &mut [u8], offsets: &[Option<u8>; Timetable::IDS])
    requires { SCHEDULE ≤ length area.old }
    ensures { area.new ≡ sets area.old OFFSETS_AT (map offset_byte offsets.now) }
{
    for id in 0..Timetable::IDS {
        area[OFFSETS_AT + id] = offsets[id].unwrap_or(0);
    }
}
