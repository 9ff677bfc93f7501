// Writing an answer into an area that is lent, from a timetable that is lent. Nothing here is refused: the area is long enough for any answer.
ghost use Rattle.std.specs.Prelude.{length, [], ◌∷◌, ◌≡◌, ◌+◌, ◌*◌, ◌≤◌};
ghost use Rattle.std.proofs.lemmas.List.Edits.{sets};
ghost use Rattle.records.specs.Answer.{answer_record, field, entry_fields};
ghost use Rattle.slots.specs.Limits.{AREA, IDS, LONGEST};

use super::fields::put_head;
use timetable::{Entry, Timetable};

// The tag of the transition's length.
pub const LENGTH_TAG: u8 = 0x10;

// The tag of its owners.
pub const OWNERS_TAG: u8 = 0x11;

// The tag of a listed partition's offset.
pub const OFFSET_TAG: u8 = 0x12;

// Writes the answer that tells a timetable at the start of the area and gives its length. The bytes after it stay as they were.
pub fn write_answer(area: &mut [u8], t: &Timetable) -> usize
    requires { (AREA ≤ length area.old) × (t.now.length ≤ LONGEST) }
    ensures { (result ≡ length (answer_record t.now.length t.now.owners t.now.entries)) × (area.new ≡ sets area.old 0 (answer_record t.now.length t.now.owners t.now.entries)) }
{
    put_head(area, 0, LENGTH_TAG, 1);
    area[3] = t.length;
    put_head(area, 4, OWNERS_TAG, t.length);
    let size = t.length as usize;
    area[7..7 + size].copy_from_slice(&t.owners[..size]);
    put_offsets(area, 7 + size, &t.entries)
}

// The offset of each listed partition, ids rising, and the place after them.
fn put_offsets(area: &mut [u8], from: usize, entries: &[Entry; Timetable::IDS]) -> usize
    requires { from + 5 * IDS ≤ length area.old }
    ensures { (result ≡ from + length (entry_fields entries.now IDS)) × (area.new ≡ sets area.old from (entry_fields entries.now IDS)) }
{
    let mut at = from;
    for (id, e) in entries.iter().enumerate() {
        if e.is_listed() {
            put_offset(area, at, id as u8, e.offset);
            at += 5;
        }
    }
    at
}

// The field of one listed partition.
fn put_offset(area: &mut [u8], at: usize, id: u8, offset: u8)
    requires { at + 5 ≤ length area.old }
    ensures { area.new ≡ sets area.old at (field 0x12 (id ∷ offset ∷ [])) }
{
    area[at..at + 5].copy_from_slice(&[OFFSET_TAG, 0, 2, id, offset]);
}
