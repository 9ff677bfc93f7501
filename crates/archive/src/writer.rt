// Writing a request into an area that is lent. It refuses 4 for a value out of range, 5 for an id that is not above the one before, and 2 for an area shorter than the record.
ghost use Rattle.std.specs.Prelude.{length, [], ◌∷◌, ◌≡◌, ◌+◌, ◌*◌, ◌≤◌, ◌<◌};
ghost use Rattle.std.proofs.lemmas.List.Edits.{sets};
ghost use Rattle.archive.specs.Put.{listing_fields, request_fields};
ghost use Rattle.archive.specs.RequestWrite.{area_written, checked, handed_request, is_entry, take_entries, write_request};
ghost use Rattle.records.specs.Answer.{field};
ghost use Rattle.records.specs.Request.{no_asks};

use numbers::Refusal;
use records::read::{LIMIT_FIELD, LIMIT_TAG, LISTED_TAG, LISTING_AT, SLOT_TAG};
use records::{put_head, put_number};
use slots::CoreSlot;
use timetable::Timetable;

// The place told where the slot is out of range.
const SLOT_PLACE: usize = 64;

// The place told where T is.
const LIMIT_PLACE: usize = 65;

// An entry of a listing has this many bytes.
const ENTRY: usize = 3;

// The place of T in its field.
const LIMIT_AT: usize = 14;

// An entry's field has this many bytes.
const ENTRY_FIELD: usize = 6;

// Writes a request at the start of the area, each R in full, and gives its length. The listing has three bytes an entry: id, k, R. The bytes after the record stay as they were, and after a refusal all do.
pub fn write_request(
    slot: CoreSlot,
    limit: u8,
    listing: &[u8],
    area: &mut [u8],
) -> Result<usize, Refusal>
    ensures { (result ≡ write_request slot limit listing.now (length area.old)) × (area.new ≡ area_written slot limit listing.now area.old) }
{
    check_request(slot, limit, listing)?;
    let count = listing.len() / ENTRY;
    let size = LISTING_AT + ENTRY_FIELD * count;
    if area.len() < size {
        return Err(Refusal::of(Refusal::SMALL_AREA, 0));
    }
    put_request(slot, limit, listing, count, area);
    Ok(size)
}

// Whether the slot, T and the listing are in range, in this order, or else the first refusal.
fn check_request(slot: CoreSlot, limit: u8, listing: &[u8]) -> Result<(), Refusal>
    ensures { result ≡ checked (handed_request slot limit listing.now) }
{
    if Timetable::LAST_SLOT < slot.0 {
        return Err(Refusal::of(Refusal::OUT_OF_RANGE, SLOT_PLACE));
    }
    if Timetable::LONGEST < (limit as usize) {
        return Err(Refusal::of(Refusal::OUT_OF_RANGE, LIMIT_PLACE));
    }
    check_entries(listing)
}

// Whether every entry is in range and its id above the one before, or else the first refusal.
fn check_entries(listing: &[u8]) -> Result<(), Refusal>
    ensures { result ≡ checked (take_entries (length listing.now) listing.now 0 0 no_asks) }
{
    let mut floor: u8 = 0;
    for n in 0..listing.len().div_ceil(ENTRY) {
        if !is_entry(listing, n) {
            return Err(Refusal::of(Refusal::OUT_OF_RANGE, n));
        }
        let id = listing[ENTRY * n];
        if id < floor {
            return Err(Refusal::of(Refusal::NOT_RISING, n));
        }
        floor = id + 1;
    }
    Ok(())
}

// Whether entry n is not cut short, and its id, k and R are in range.
fn is_entry(listing: &[u8], n: usize) -> bool
    requires { 3 * n < length listing.now }
    ensures { result ≡ is_entry listing.now n }
{
    let [id, k, bound, ..] = &listing[ENTRY * n..] else {
        return false;
    };
    if Timetable::IDS <= (*id as usize) {
        return false;
    }
    if Timetable::LARGEST_K < *k {
        return false;
    }
    timetable::is_bound(*bound)
}

// Writes the fields of a request with the first entries of a listing.
fn put_request(slot: CoreSlot, limit: u8, listing: &[u8], count: usize, area: &mut [u8])
    requires { (3 * count ≤ length listing.now) × (15 + 6 * count ≤ length area.old) }
    ensures { area.new ≡ sets area.old 0 (request_fields slot limit listing.now count) }
{
    put_head(area, 0, SLOT_TAG, 8);
    put_number(area, 3, 8, slot.0);
    put_head(area, LIMIT_FIELD, LIMIT_TAG, 1);
    area[LIMIT_AT] = limit;
    put_entries(listing, count, area);
}

// Writes the fields of the first entries of a listing, behind the fields of the slot and T.
fn put_entries(listing: &[u8], count: usize, area: &mut [u8])
    requires { (3 * count ≤ length listing.now) × (15 + 6 * count ≤ length area.old) }
    ensures { area.new ≡ sets area.old 15 (listing_fields listing.now count) }
{
    // By index: once a part lent by chunks_exact_mut is given back, a proof knows its length alone.
    for n in 0..count {
        let at = ENTRY * n;
        put_entry(
            area,
            LISTING_AT + ENTRY_FIELD * n,
            listing[at],
            listing[at + 1],
            listing[at + 2],
        );
    }
}

// Writes the field of one entry.
fn put_entry(area: &mut [u8], at: usize, id: u8, k: u8, bound: u8)
    requires { at + 6 ≤ length area.old }
    ensures { area.new ≡ sets area.old at (field 3 (id ∷ k ∷ bound ∷ [])) }
{
    area[at..at + ENTRY_FIELD].copy_from_slice(&[LISTED_TAG, 0, 3, id, k, bound]);
}
