// Whether a timetable is sound, clause by clause, whatever its fields hold. Nothing here is refused.
ghost use Rattle.std.specs.Prelude.{eqb, leb, get_or, length as length_of, true, false, cond, MatchOption, ◌&&◌, ◌≡◌, ◌+◌, ◌*◌, ◌≤◌, ◌<◌};
ghost use Rattle.slots.specs.Below.{every};
ghost use Rattle.slots.specs.Limits.{IDS, LAST_SLOT, LONGEST};
ghost use Rattle.slots.specs.Shortfall.{keeps};
ghost use Rattle.timetable.specs.Marks.{OfCycle, AreSlots};
ghost use Rattle.timetable.specs.Sound.{is_period, is_bound, entry_in_range, entry_absent, start_in_range, is_sound};
ghost use Rattle.timetable.specs.Taken.{Takes};
ghost use Rattle.timetable.specs.Timetable.{entry_of, is_listed, weight};
ghost use Rattle.timetable.specs.Walk.{Fit, weighs, Walkable, Walked};

use crate::figures::{after_own, weight_of};
use crate::{Entry, SoundTimetable, Timetable};

// A word marks this many slots, one bit each: slot n is bit n % 64 of word n / 64.
pub const WORD: usize = 64;

// This many words mark the slots of one cycle.
pub const WORDS: usize = Timetable::WHOLE as usize / WORD;

impl Timetable {
    // The timetable as one that is known to be sound, if it is.
    pub fn sound<'a>(&'a self) -> Option<SoundTimetable<'a>>
        ensures { MatchOption result (is_sound self.now ≡ false) (λ s. s.timetable.now ≡ self.now) }
    {
        if self.is_sound() {
            Some(self.known_sound())
        } else {
            None
        }
    }

    // A timetable of which it is known that it is sound.
    pub fn known_sound<'a>(&'a self) -> SoundTimetable<'a>
        requires { is_sound self.now ≡ true }
        ensures { result.timetable.now ≡ self.now }
    {
        SoundTimetable { timetable: self }
    }

    // Whether the timetable is sound.
    pub fn is_sound(&self) -> bool
        ensures { result ≡ is_sound self.now }
    {
        if !self.is_placed() {
            return false;
        }
        let mut weights = [0; Timetable::IDS];
        let mut owed = [0; Timetable::IDS];
        if !self.entries_fit(&mut weights, &mut owed) {
            return false;
        }
        let (transition, unused) = self.owners.split_at(self.length as usize);
        if !owners_listed(transition, &weights) {
            return false;
        }
        if !are_zero(unused) {
            return false;
        }
        walk(transition, &weights, &mut owed);
        are_shortfalls(&owed, &self.entries)
    }

    // Request slot and length in range, and the base as stated.
    fn is_placed(&self) -> bool
        ensures { result ≡ (leb self.now.request.0 LAST_SLOT && leb self.now.length LONGEST && eqb self.now.base.0 (self.now.request.0 + self.now.length)) }
    {
        self.request.0 <= Timetable::LAST_SLOT
            && self.length as usize <= Timetable::LONGEST
            && self.base.0 == self.request.0 + self.length as u64
    }

    // Each listed entry is in range and each other one all zero but for a shortfall below 2,048; each listed id's start is below 256 R, and every other one is the shortfall at the base; and no two share a cyclic slot: each in turn takes its slots of one cycle, and finds none taken. Each one's weight is put in, and what it would be owed at the base if no transition slot were its own: the start, and the weight for each slot.
    fn entries_fit(
        &self,
        weights: &mut [u16; Timetable::IDS],
        owed: &mut [u16; Timetable::IDS],
    ) -> bool
        requires { self.now.length ≤ LONGEST }
        ensures { Fit self.now.entries self.now.starts self.now.length result weights.new owed.new }
    {
        let size = self.length as u16;
        let mut taken = [0; WORDS];
        for (id, e) in self.entries.iter().enumerate() {
            let start = self.starts[id];
            if !e.is_well_formed() {
                return false;
            }
            if !e.bears(start) {
                return false;
            }
            if !take_slots(&mut taken, *e) {
                return false;
            }
            let w = weight_of(e.period);
            weights[id] = w;
            owed[id] = start + w * size;
        }
        true
    }
}

// Each of these owners is an id with a weight.
fn owners_listed(owners: &[u8], weights: &[u16; Timetable::IDS]) -> bool
    ensures { result ≡ every (length_of owners.now) (weighs owners.now weights.now) }
{
    for owner in owners {
        if Timetable::IDS as u8 <= *owner {
            return false;
        }
        if weights[*owner as usize] == 0 {
            return false;
        }
    }
    true
}

// Whether all of these are zero. All are looked at, so that nothing waits for an answer.
fn are_zero(owners: &[u8]) -> bool
    ensures { result ≡ every (length_of owners.now) (λ n. eqb (get_or owners.now n 0) 0) }
{
    let mut used = 0;
    for owner in owners {
        used |= *owner;
    }
    used == 0
}

// Walks the transition in one pass over its owners: each slot is taken off what its owner would be owed at the base without the slots left.
fn walk(owners: &[u8], weights: &[u16; Timetable::IDS], owed: &mut [u16; Timetable::IDS])
    requires { Walkable owners.now weights.now owed.old }
    ensures { Walked owners.now weights.now owed.old owed.new }
{
    for (n, owner) in owners.iter().enumerate() {
        let id = *owner as usize;
        let rest = weights[id] * ((owners.len() - n - 1) as u16);
        let due = owed[id] - rest;
        owed[id] = after_own(due, rest);
    }
}

// Whether these are the shortfalls at the base.
fn are_shortfalls(owed: &[u16; Timetable::IDS], entries: &[Entry; Timetable::IDS]) -> bool
    ensures { result ≡ every IDS (λ i. eqb (get_or owed.now i 0) (entry_of entries.now i).shortfall) }
{
    let mut differ = 0;
    for (id, e) in entries.iter().enumerate() {
        differ |= owed[id] ^ e.shortfall;
    }
    differ == 0
}

impl Entry {
    // In range where it is listed, and all zero but for a shortfall below 2,048 where it is not.
    fn is_well_formed(self) -> bool
        ensures { result ≡ cond (is_listed self) (entry_in_range self) (entry_absent self) }
    {
        if self.is_listed() {
            self.in_range()
        } else {
            self.is_absent()
        }
    }

    // Period and bound in range, the offset below the period, and the bound kept up to the first own slot.
    #[tactic(auto, unfolding(crate::specs::Sound::entry_in_range))]
    fn in_range(self) -> bool
        ensures { result ≡ entry_in_range self }
    {
        is_period(self.period)
            && is_bound(self.bound)
            && (self.offset as u16) < self.period
            && self.is_kept()
    }

    // Shortfall + offset x weight is below 256 R: both sides times the period, since period x weight is 256.
    fn is_kept(self) -> bool
        requires { is_period self.period ≡ true }
        ensures { result ≡ keeps self.bound (self.shortfall + self.offset * weight self) }
    {
        let whole = Timetable::WHOLE as u32;
        let p = self.period as u32;
        let owed = (self.shortfall as u32) * p + (self.offset as u32) * whole;
        owed < whole * (self.bound as u32) * p
    }

    // A start below 256 R where it is listed, and the shortfall at the base where it is not.
    fn bears(self, start: u16) -> bool
        requires { is_listed self ≡ true → entry_in_range self ≡ true }
        ensures { result ≡ start_in_range self start }
    {
        if self.is_listed() {
            return start < Timetable::WHOLE * (self.bound as u16);
        }
        start == self.shortfall
    }

    // Offset and bound are zero, and the shortfall is below 256 R for the largest R.
    #[tactic(auto, unfolding(crate::specs::Sound::entry_absent, slots::specs::Shortfall::keeps))]
    fn is_absent(self) -> bool
        ensures { result ≡ entry_absent self }
    {
        self.offset == 0
            && self.bound == 0
            && self.shortfall < Timetable::WHOLE * (Timetable::LARGEST_BOUND as u16)
    }
}

// An entry takes its slots of one cycle, if none of them is taken: those of a word at once.
fn take_slots(taken: &mut [u64; WORDS], e: Entry) -> bool
    requires of_cycle { OfCycle taken.old }
    requires e_value { is_listed e ≡ true → entry_in_range e ≡ true }
    ensures { Takes taken.old e result taken.new }
{
    if !e.is_listed() {
        return true;
    }
    let period = e.period as usize;
    let offset = e.offset as usize;
    let slots = slots_in_word(period, offset);
    let stride = (period + (WORD - 1)) / WORD;
    for word in (offset / WORD..WORDS).step_by(stride) {
        if taken[word] & slots != 0 {
            return false;
        }
        taken[word] |= slots;
    }
    true
}

// The slots of an offset in a word that has any of them: the first, and then twice as many, which reach twice as far, up to the word's end.
// (A `for` is no plainer: how far the slots reach doubles, and is what the loop tests.)
pub fn slots_in_word(period: usize, offset: usize) -> u64
    requires { offset < period }
    ensures { AreSlots period offset result }
{
    let mut slots = 1 << (offset % WORD);
    let mut reach = period;
    while reach < WORD {
        slots |= slots << reach;
        reach *= 2;
    }
    slots
}

// A period is a power of two from 1 to 256.
pub fn is_period(p: u16) -> bool
    ensures { result ≡ is_period p }
{
    matches!(p, 1 | 2 | 4 | 8 | 16 | 32 | 64 | 128 | 256)
}

// Whether a bound is from 1 to 8.
#[tactic(auto, unfolding(crate::specs::Sound::is_bound))]
pub fn is_bound(bound: u8) -> bool
    ensures { result ≡ is_bound bound }
{
    0 < bound && bound <= Timetable::LARGEST_BOUND
}
