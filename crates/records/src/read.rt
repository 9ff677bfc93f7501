// Reading a request, left to right. It refuses 3 for a field's form, 4 for a value out of range and 5 for an id that is not above the one before.
ghost use Rattle.std.specs.Prelude.{length, MatchResult, Ok, Err, ◌≡◌, ◌+◌, ◌^◌, ◌≤◌};
ghost use Rattle.records.specs.Request.{content_at, is_listing, listed_as, listed_field, no_asks, number_field, read_listing, read_request};
ghost use Rattle.slots.specs.Limits.{LARGEST_K};

use super::fields::{content_at, is_field, number_at};
use super::{Ask, Listed, Numbered, Request};
use numbers::Refusal;
use slots::CoreSlot;
use timetable::Timetable;

// The tag of the request slot.
pub const SLOT_TAG: u8 = 1;

// The tag of T.
pub const LIMIT_TAG: u8 = 2;

// The tag of a listed partition.
pub const LISTED_TAG: u8 = 3;

// The place of T's field, behind that of the slot.
pub const LIMIT_FIELD: usize = 11;

// The place of the first listed partition's field.
pub const LISTING_AT: usize = 15;

// Reads a whole request, or gives the number and the place of the first field that is refused.
// (Not by `?`: docs/RULES.md 13.4 has let .. else take a field's value and the place of the next, or return number and place.)
pub fn read_request(s: &[u8]) -> Result<Request, Refusal>
    ensures { result ≡ read_request s.now }
{
    // Tag 1, length 8: the request slot, at most 2^48 - 1.
    let first = number_field(s, 0, SLOT_TAG, 8, Timetable::LAST_SLOT);
    let Ok(Numbered { value: slot, next }) = first else {
        return Err(first.unwrap_err());
    };
    // Tag 2, length 1: T, 0 to 64.
    let second = number_field(s, next, LIMIT_TAG, 1, Timetable::LONGEST as u64);
    let Ok(Numbered { value: limit, next }) = second else {
        return Err(second.unwrap_err());
    };
    let asks = read_listing(s, next)?;
    Ok(Request {
        slot: CoreSlot(slot),
        limit: limit as u8,
        asks,
    })
}

// Reads a field of this tag and length that holds a number, at most `most`.
fn number_field(s: &[u8], at: usize, tag: u8, size: u8, most: u64) -> Result<Numbered, Refusal>
    requires { size ≤ 8 }
    ensures { MatchResult result (λ f. (number_field s.now at tag size most ≡ Ok f.value) × (f.next ≡ at + 3 + size)) (λ r. number_field s.now at tag size most ≡ Err r) }
{
    if !is_field(s, at, tag, size) {
        return Err(Refusal::of(Refusal::BAD_FIELD, at));
    }
    let number = number_at(s, at + 3, size as usize);
    if most < number {
        return Err(Refusal::of(Refusal::OUT_OF_RANGE, at));
    }
    let next = at + 3 + (size as usize);
    Ok(Numbered {
        value: number,
        next,
    })
}

// Reads the field of a listed partition, whose id is to be `floor` or above.
fn listed_field(s: &[u8], at: usize, floor: u8) -> Result<Listed, Refusal>
    ensures { result ≡ listed_field s.now at floor }
{
    if is_field(s, at, LISTED_TAG, 3) {
        let bound = content_at(s, at, 2);
        if !is_listing(s, at) {
            return Err(Refusal::of(Refusal::OUT_OF_RANGE, at));
        }
        if !timetable::is_bound(bound) {
            return Err(Refusal::of(Refusal::OUT_OF_RANGE, at));
        }
        return listed_as(s, at, floor, bound, at + 6);
    }
    if !is_field(s, at, LISTED_TAG, 2) {
        return Err(Refusal::of(Refusal::BAD_FIELD, at));
    }
    if !is_listing(s, at) {
        return Err(Refusal::of(Refusal::OUT_OF_RANGE, at));
    }
    listed_as(s, at, floor, 0, at + 5)
}

// Reads the fields of the listed partitions from a place up to the record's end.
fn read_listing(s: &[u8], from: usize) -> Result<[Ask; Timetable::IDS], Refusal>
    ensures { result ≡ read_listing (length s.now) s.now (length s.now) from 0 no_asks }
{
    let mut asks = no_asks();
    let mut at = from;
    let mut floor: u8 = 0;
    // No for loop: a field has five bytes or six, so each tells the place of the next.
    while at < s.len() {
        let field = listed_field(s, at, floor);
        let Ok(Listed { id, ask, next }) = field else {
            return Err(field.unwrap_err());
        };
        asks[id as usize] = ask;
        floor = id + 1;
        at = next;
    }
    Ok(asks)
}

// A listing that asks for nothing.
fn no_asks() -> [Ask; Timetable::IDS]
    ensures { result ≡ no_asks }
{
    [Ask {
        period: 0,
        bound: 0,
    }; Timetable::IDS]
}

// What the field at a place lists, unless its id is below `floor`.
fn listed_as(s: &[u8], at: usize, floor: u8, bound: u8, next: usize) -> Result<Listed, Refusal>
    requires { (at + 5 ≤ length s.now) × (content_at s.now at 1 ≤ LARGEST_K) }
    ensures { result ≡ listed_as s.now at floor bound next }
{
    let id = content_at(s, at, 0);
    if id < floor {
        return Err(Refusal::of(Refusal::NOT_RISING, at));
    }
    let period = power(content_at(s, at, 1));
    let ask = Ask { period, bound };
    Ok(Listed { id, ask, next })
}

// Whether the field at a place has an id from 0 to 31 and a k from 0 to 8.
fn is_listing(s: &[u8], at: usize) -> bool
    requires { at + 5 ≤ length s.now }
    ensures { result ≡ is_listing s.now at }
{
    let id = content_at(s, at, 0);
    let k = content_at(s, at, 1);
    if Timetable::IDS <= (id as usize) {
        return false;
    }
    k <= Timetable::LARGEST_K
}

// The period 2^k.
fn power(k: u8) -> u16
    requires { k ≤ LARGEST_K }
    ensures { result ≡ 2 ^ k }
{
    let one: u16 = 1;
    one << k
}
