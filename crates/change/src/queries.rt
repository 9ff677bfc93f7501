// The owner query and the standing query. A refused query returns zeros beside its number.
ghost use Rattle.std.specs.Prelude.{Err, IfErr, IfOk, Ok, ◌≡◌, ◌≤◌, ◌<◌};
ghost use Rattle.change.specs.Queried.{owner_answer, standing_answer};
ghost use Rattle.change.specs.Queries.{owner_query, standing_query};
ghost use Rattle.numbers.specs.Numbers.{ACCEPTED, OUT_OF_RANGE, TOO_EARLY, refusal};
ghost use Rattle.slots.specs.Clocks.{slice_count};
ghost use Rattle.slots.specs.Limits.{LAST_SLOT};

use crate::before::sound_stage;
use crate::{OwnerAnswer, StandingAnswer};
use numbers::Refusal;
use slots::{CoreSlot, SliceCount};
use timetable::{SoundTimetable, Standing, Timetable};

// The owner of a slot, from the last accepted request slot on, or 255 for idle.
pub fn owner_query(t: &Timetable, slot: CoreSlot) -> OwnerAnswer
    ensures { result ≡ owner_query t.now slot }
{
    match owner_of(t, slot) {
        Ok(owner) => OwnerAnswer {
            number: Refusal::ACCEPTED,
            place: 0,
            owner,
        },
        Err(refusal) => OwnerAnswer {
            number: refusal.number,
            place: refusal.place,
            owner: 0,
        },
    }
}

// The shortfall of an id at a slot's start, from the last accepted request slot on, and the slices it has had from there up to the slot.
pub fn standing_query(t: &Timetable, id: u8, slot: CoreSlot) -> StandingAnswer
    ensures { result ≡ standing_query t.now id slot }
{
    match standing_of(t, id, slot) {
        Ok(standing) => StandingAnswer {
            number: Refusal::ACCEPTED,
            place: 0,
            shortfall: standing.shortfall,
            slices: standing.slices,
        },
        Err(refusal) => StandingAnswer {
            number: refusal.number,
            place: refusal.place,
            shortfall: 0,
            slices: SliceCount(0),
        },
    }
}

// The owner of a slot, or the refusal of the owner query.
fn owner_of(t: &Timetable, slot: CoreSlot) -> Result<u8, Refusal>
    ensures owned { IfOk result (λ o. owner_query t.now slot ≡ owner_answer ACCEPTED o) }
    ensures refused { IfErr result (λ r. owner_query t.now slot ≡ record { number = r.number; place = r.place; owner = 0 }) }
{
    let sound = sound_stage(t)?;
    slot_stages(sound, slot)?;
    Ok(sound.owner_at(slot).unwrap_or(Timetable::IDLE))
}

// The standing of an id at a slot, or the refusal of the standing query.
fn standing_of(t: &Timetable, id: u8, slot: CoreSlot) -> Result<Standing, Refusal>
    ensures stands { IfOk result (λ s. standing_query t.now id slot ≡ standing_answer ACCEPTED s.shortfall s.slices) }
    ensures refused { IfErr result (λ r. standing_query t.now id slot ≡ record { number = r.number; place = r.place; shortfall = 0; slices = slice_count 0 }) }
{
    let sound = sound_stage(t)?;
    if Timetable::IDS <= (id as usize) {
        return Err(Refusal::of(Refusal::OUT_OF_RANGE, 0));
    }
    slot_stages(sound, slot)?;
    if !t.entries[id as usize].is_listed() {
        return Err(Refusal::of(Refusal::NOT_LISTED, 0));
    }
    Ok(sound.standing_at(id, slot))
}

// What both queries ask of a slot: that it is not above the limit, and then that it is not before the last accepted request slot.
fn slot_stages(t: SoundTimetable, slot: CoreSlot) -> Result<(), Refusal>
    ensures high { LAST_SLOT < slot.0 → result ≡ Err (refusal OUT_OF_RANGE 0) }
    ensures early { slot.0 ≤ LAST_SLOT → slot.0 < t.entry.timetable.now.request.0 → result ≡ Err (refusal TOO_EARLY 0) }
    ensures in_time { slot.0 ≤ LAST_SLOT → t.entry.timetable.now.request.0 ≤ slot.0 → result ≡ Ok tt }
{
    if Timetable::LAST_SLOT < slot.0 {
        return Err(Refusal::of(Refusal::OUT_OF_RANGE, 0));
    }
    if slot.0 < t.timetable.request.0 {
        return Err(Refusal::of(Refusal::TOO_EARLY, 0));
    }
    Ok(())
}
