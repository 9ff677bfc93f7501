// Reading an answer in a record that is lent, by its places. It refuses 3 for every other form than the controller's, at the place of the field in which that shows.
ghost use Rattle.std.specs.Prelude.{◌≢◌, ◌≡◌, ◌+◌, ◌≤◌, ◌<◌, leb, length, replicate, Err};
ghost use Rattle.archive.specs.AnswerRead.{are_owners, field_at, floor_at, length_field, length_stands, no_schedule, offset_field, offset_stands, owners_below, owners_field, owners_stand, read_from, read_into, told_length, told_owner};
ghost use Rattle.archive.specs.AnswerReads.{AnswerRead};
ghost use Rattle.numbers.specs.Numbers.{BAD_FIELD, refusal};
ghost use Rattle.slots.specs.Limits.{LONGEST};

use super::{AnswerField, AnswerStep, Schedule};
use numbers::Refusal;
use records::write::{LENGTH_TAG, OFFSET_TAG, OWNERS_TAG};
use records::{content_at, is_field};
use timetable::Timetable;

// The place of the owners' field.
const OWNERS_AT: usize = 4;

// The place of the first owner.
const FIRST_OWNER: usize = 7;

// An offset's field has this many bytes.
const OFFSET_FIELD: usize = 5;

// What all fields from a place on say, or the first that is refused.
pub fn rest_at(s: &[u8], from: usize) -> Result<Schedule, Refusal>
    ensures { result ≡ read_from s.now from }
{
    let mut x = Schedule::empty();
    rest_into(s, from, &mut x)?;
    Ok(x)
}

// The same, into an empty schedule that is lent. (Handed back in a Result it is copied, an `Option` at a time: reading an answer took up to four times as long.)
pub(crate) fn rest_into(s: &[u8], from: usize, x: &mut Schedule) -> Result<(), Refusal>
    requires { x.old ≡ no_schedule }
    ensures { read_into x.new result ≡ read_from s.now from }
{
    if from == 0 {
        return from_length(s, x);
    }
    if from == OWNERS_AT {
        return from_owners(s, x);
    }
    from_offsets(s, from, x)
}

// What stands at a place: a field, nothing more, or the refusal.
pub fn field_at(s: &[u8], at: usize) -> Result<Option<AnswerStep>, Refusal>
    ensures { result ≡ field_at s.now at }
{
    if at == 0 {
        return length_field(s);
    }
    if at == OWNERS_AT {
        return owners_field(s);
    }
    if s.len() <= at {
        return Ok(None);
    }
    offset_field(s, at)
}

// Tag 10 hex, length 1: the transition's length, at most 64.
fn length_field(s: &[u8]) -> Result<Option<AnswerStep>, Refusal>
    ensures { result ≡ length_field s.now }
{
    if !length_stands(s) {
        return Err(bad_field(0));
    }
    Ok(Some(AnswerStep {
        field: AnswerField::Length(told_length(s)),
        next: OWNERS_AT,
    }))
}

// Tag 11 hex: as many owners as the length says.
fn owners_field(s: &[u8]) -> Result<Option<AnswerStep>, Refusal>
    ensures { result ≡ owners_field s.now }
{
    if !owners_stand(s) {
        return Err(bad_field(OWNERS_AT));
    }
    let size = told_length(s);
    Ok(Some(AnswerStep {
        field: AnswerField::Owners(size),
        next: FIRST_OWNER + (size as usize),
    }))
}

// Tag 12 hex, length 2: an id above the one before, and its offset.
fn offset_field(s: &[u8], at: usize) -> Result<Option<AnswerStep>, Refusal>
    requires { 0 < at }
    ensures { result ≡ offset_field s.now at }
{
    if !offset_stands(s, at) {
        return Err(bad_field(at));
    }
    Ok(Some(AnswerStep {
        field: AnswerField::Offset(content_at(s, at, 0), content_at(s, at, 1)),
        next: at + OFFSET_FIELD,
    }))
}

// The refusal of a field of another form than the controller's: 3, at its place.
fn bad_field(at: usize) -> Refusal
    ensures { result ≡ refusal BAD_FIELD at }
{
    Refusal::of(Refusal::BAD_FIELD, at)
}

// Whether the length stands at 0.
fn length_stands(s: &[u8]) -> bool
    ensures { result ≡ length_stands s.now }
{
    if !is_field(s, 0, LENGTH_TAG, 1) {
        return false;
    }
    (told_length(s) as usize) <= Timetable::LONGEST
}

// Whether the owners stand at 4.
fn owners_stand(s: &[u8]) -> bool
    ensures { result ≡ owners_stand s.now }
{
    let size = told_length(s);
    if Timetable::LONGEST < (size as usize) {
        return false;
    }
    if !is_field(s, OWNERS_AT, OWNERS_TAG, size) {
        return false;
    }
    are_owners(s, size)
}

// Whether an id with its offset stands at a place.
fn offset_stands(s: &[u8], at: usize) -> bool
    requires { 0 < at }
    ensures { result ≡ offset_stands s.now at }
{
    if !is_field(s, at, OFFSET_TAG, 2) {
        return false;
    }
    let id = content_at(s, at, 0);
    if Timetable::IDS <= (id as usize) {
        return false;
    }
    is_above(s, at, id)
}

// The transition's length, as the record's fourth byte tells it.
fn told_length(s: &[u8]) -> u8
    ensures { result ≡ told_length s.now }
{
    if s.len() <= 3 { 0 } else { s[3] }
}

// Whether each of these owners is 0 to 31.
fn are_owners(s: &[u8], size: u8) -> bool
    requires { 7 + size ≤ length s.now }
    ensures { result ≡ are_owners s.now size }
{
    // Each is looked at, and all are answered once: `all`, which ends at the first that is none, takes five times as many instructions.
    let mut are = true;
    for n in 0..size as usize {
        if Timetable::IDS <= (s[FIRST_OWNER + n] as usize) {
            are = false;
        }
    }
    are
}

// Puts the owners of the transition slots over zeros, which stay for the slots that the transition does not have. (Where it has none nothing is copied: the call alone would take a tenth of the time.)
fn put_owners(s: &[u8], owners: &mut [u8; Timetable::LONGEST])
    requires zeros { owners.old ≡ replicate LONGEST 0 }
    requires told { (told_length s.now ≤ LONGEST) × (7 + told_length s.now ≤ length s.now) }
    ensures { owners.new ≡ owners_below s.now LONGEST }
{
    let count = told_length(s) as usize;
    if 0 < count {
        owners[..count].copy_from_slice(&s[FIRST_OWNER..FIRST_OWNER + count]);
    }
}

// The owner of transition slot n, or 0 where the transition does not have it.
pub fn owner_at(s: &[u8], n: usize) -> u8
    ensures { result ≡ told_owner s.now n }
{
    if (told_length(s) as usize) <= n {
        return 0;
    }
    if s.len() <= FIRST_OWNER + n {
        return 0;
    }
    s[FIRST_OWNER + n]
}

// Whether the id of the field at a place is above that of the field before. The first field stands behind the owners.
fn is_above(s: &[u8], at: usize, id: u8) -> bool
    requires { (0 < at) × (at + 5 ≤ length s.now) }
    ensures { result ≡ leb (floor_at s.now at) id }
{
    if at <= FIRST_OWNER + (told_length(s) as usize) {
        return true;
    }
    s[at - 2] < id
}

// What is read from the length on, added to what was read before.
fn from_length(s: &[u8], x: &mut Schedule) -> Result<(), Refusal>
    requires { x.old.owners ≡ replicate LONGEST 0 }
    ensures { AnswerRead s.now 0 x.old (read_into x.new result) }
{
    if !length_stands(s) {
        return Err(bad_field(0));
    }
    x.length = told_length(s);
    from_owners(s, x)
}

// What is read from the owners on, added to what was read before.
fn from_owners(s: &[u8], x: &mut Schedule) -> Result<(), Refusal>
    requires { x.old.owners ≡ replicate LONGEST 0 }
    ensures { AnswerRead s.now 4 x.old (read_into x.new result) }
{
    if !owners_stand(s) {
        return Err(bad_field(OWNERS_AT));
    }
    put_owners(s, &mut x.owners);
    from_offsets(s, FIRST_OWNER + (told_length(s) as usize), x)
}

// What is read from the offsets on, added to what was read before.
fn from_offsets(s: &[u8], from: usize, x: &mut Schedule) -> Result<(), Refusal>
    requires { (from ≢ 0) × (from ≢ 4) }
    ensures { AnswerRead s.now from x.old (read_into x.new result) }
{
    let mut at = from;
    // No for loop: only the field itself tells whether one stands there.
    while offset_stands(s, at) {
        let id = content_at(s, at, 0);
        let offset = content_at(s, at, 1);
        x.offsets[id as usize] = Some(offset);
        at += OFFSET_FIELD;
    }
    if at < s.len() {
        return Err(bad_field(at));
    }
    Ok(())
}
