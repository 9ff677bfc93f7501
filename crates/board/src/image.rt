// The image of a timetable: the fields in the order of docs/RULES.md 10.1, numbers high byte first. Nothing here is refused.
ghost use Rattle.std.specs.Prelude.{drop, length, take, ◌≡◌, ◌+◌, ◌*◌, ◌≤◌, ◌<◌};
ghost use Rattle.std.proofs.lemmas.List.Edits.{sets};
ghost use Rattle.board.specs.Image.{ENTRIES_AT, ENTRY, IMAGE, START, STARTS_AT, entries_bytes, entry_at, entry_bytes, image_of, start_at, starts_bytes, timetable_at};
ghost use Rattle.slots.specs.Limits.{IDS};
ghost use Rattle.timetable.specs.Timetable.{empty_timetable};

use crate::IMAGE;
use slots::CoreSlot;
use timetable::{Entry, Timetable};

// The place of the request slot.
const REQUEST_AT: usize = 0;

// The place of the transition's length.
const LENGTH_AT: usize = 8;

// The place of its owners.
const OWNERS_AT: usize = 9;

// The place of the base.
const BASE_AT: usize = 73;

// The place of the entries.
const ENTRIES_AT: usize = 81;

// An entry has this many bytes.
const ENTRY: usize = 6;

// The place of the starts.
const STARTS_AT: usize = 273;

// A start has this many bytes.
const START: usize = 2;

// Reads the timetable that an image holds into an empty one that is lent. (Handed back it was held twice on the stack.)
pub fn read_image(image: &[u8; IMAGE], t: &mut Timetable)
    requires { t.old ≡ empty_timetable }
    ensures { t.new ≡ timetable_at image.now }
{
    t.request = CoreSlot(u64::from_be_bytes(bytes_at(image, REQUEST_AT)));
    t.length = image[LENGTH_AT];
    t.owners = bytes_at(image, OWNERS_AT);
    t.base = CoreSlot(u64::from_be_bytes(bytes_at(image, BASE_AT)));
    for id in 0..Timetable::IDS {
        t.entries[id] = entry_of(image, id);
        t.starts[id] = start_of(image, id);
    }
}

// The bytes from a place, as many as are asked for.
fn bytes_at<const N: usize>(image: &[u8; IMAGE], at: usize) -> [u8; N]
    requires { at + N ≤ IMAGE }
    ensures { result ≡ take N (drop at image.now) }
{
    let mut bytes = [0; N];
    bytes.copy_from_slice(&image[at..at + N]);
    bytes
}

// The entry of an id that an image holds.
fn entry_of(image: &[u8; IMAGE], id: usize) -> Entry
    requires { id < IDS }
    ensures { result ≡ entry_at image.now (ENTRIES_AT + ENTRY * id) }
{
    let [p, q, offset, bound, s, t]: [u8; ENTRY] = bytes_at(image, ENTRIES_AT + ENTRY * id);
    Entry {
        period: u16::from_be_bytes([p, q]),
        offset,
        bound,
        shortfall: u16::from_be_bytes([s, t]),
    }
}

// The start of an id that an image holds.
fn start_of(image: &[u8; IMAGE], id: usize) -> u16
    requires { id < IDS }
    ensures { result ≡ start_at image.now (STARTS_AT + START * id) }
{
    u16::from_be_bytes(bytes_at(image, STARTS_AT + START * id))
}

// Writes the image of a timetable.
pub fn put_image(image: &mut [u8; IMAGE], t: &Timetable)
    ensures { image.new ≡ image_of t.now }
{
    put_bytes(image, REQUEST_AT, &t.request.0.to_be_bytes());
    image[LENGTH_AT] = t.length;
    put_bytes(image, OWNERS_AT, &t.owners);
    put_bytes(image, BASE_AT, &t.base.0.to_be_bytes());
    put_ids(image, t);
}

// Writes the entry and the start of each id.
fn put_ids(image: &mut [u8; IMAGE], t: &Timetable)
    ensures { image.new ≡ sets (sets image.old ENTRIES_AT (entries_bytes t.now.entries IDS)) STARTS_AT (starts_bytes t.now.starts IDS) }
{
    for id in 0..Timetable::IDS {
        put_bytes(image, ENTRIES_AT + ENTRY * id, &entry_bytes(t.entries[id]));
        put_bytes(image, STARTS_AT + START * id, &t.starts[id].to_be_bytes());
    }
}

// The six bytes of an entry.
fn entry_bytes(e: Entry) -> [u8; ENTRY]
    ensures { result ≡ entry_bytes e }
{
    let [p, q] = e.period.to_be_bytes();
    let [s, t] = e.shortfall.to_be_bytes();
    [p, q, e.offset, e.bound, s, t]
}

// Writes bytes from a place on.
fn put_bytes(image: &mut [u8; IMAGE], at: usize, bytes: &[u8])
    requires { at + length bytes.now ≤ IMAGE }
    ensures { image.new ≡ sets image.old at bytes.now }
{
    image[at..at + bytes.len()].copy_from_slice(bytes);
}
