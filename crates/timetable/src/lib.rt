// The timetable of one core: its limits, its fields and the empty one. Nothing here is refused.
#![tactic(auto)]

ghost use Rattle.std.specs.Prelude.{length as length_of, true, ◌≡◌};
ghost use Rattle.slots.specs.Limits.{IDS, LONGEST};
ghost use Rattle.timetable.specs.Sound.{is_sound};
ghost use Rattle.timetable.specs.Timetable.{absent_entry, empty_timetable};

use slots::{CoreSlot, SliceCount};

mod figures; // figures.rt: the figures of one entry
pub mod slot_bits; // slot_bits.rt: the slots of one cycle, one bit each
mod serving; // serving.rt: whom a slot serves, and each id's shortfall and slices at a slot
mod soundness; // soundness.rt: whether a timetable is sound

pub use figures::{over_slot, weight_of};
pub use soundness::is_bound;

// What a timetable holds for one id. A period of 0 says that the id is not listed.
#[derive(Clone, Copy)]
pub struct Entry {
    pub period: u16,
    pub offset: u8,
    pub bound: u8,
    pub shortfall: u16,
}

impl Entry {
    // The entry of an id that is not listed: all zero but for its shortfall, which is 0 where it was never listed.
    pub fn absent(shortfall: u16) -> Entry
        ensures { result ≡ absent_entry shortfall }
    {
        Entry {
            period: 0,
            offset: 0,
            bound: 0,
            shortfall,
        }
    }
}

// The request slot, the transition's length and owners, the base, and for each id an entry and its start, the shortfall at the request slot.
#[derive(Clone, Copy)]
pub struct Timetable {
    pub request: CoreSlot,
    pub length: u8,
    pub owners: [u8; Timetable::LONGEST],
    pub base: CoreSlot,
    pub entries: [Entry; Timetable::IDS],
    pub starts: [u16; Timetable::IDS],
}

// A timetable that is known to be sound, lent: who has one need not test it again.
#[derive(Clone, Copy)]
pub struct SoundTimetable<'a> {
    pub timetable: &'a Timetable,
    ghost sound: { is_sound timetable.now ≡ true },
    ghost owners: { length_of timetable.now.owners ≡ LONGEST },
    ghost entries: { length_of timetable.now.entries ≡ IDS },
}

// How an id stands at a slot: its shortfall at the slot's start, and the slices that it has had from the request slot up to there.
#[derive(Clone, Copy)]
pub struct Standing {
    pub shortfall: u16,
    pub slices: SliceCount,
}

impl Timetable {
    // Partitions have ids below this number.
    pub const IDS: usize = 32;

    // A transition has at most this many slots.
    pub const LONGEST: usize = 64;

    // A slot is counted in 256ths, and every period divides this many slots.
    pub const WHOLE: u16 = 256;

    // No answer record is longer, and no answer area may be shorter.
    pub const AREA: usize = 231;

    // A bound R is at most this.
    pub const LARGEST_BOUND: u8 = 8;

    // A period is 2^k with k at most this.
    pub const LARGEST_K: u8 = 8;

    // The highest slot in a request or query: 2^48 - 1.
    pub const LAST_SLOT: u64 = 281474976710655;

    // The owner query's answer for an idle slot.
    pub const IDLE: u8 = 255;

    // The empty timetable: request slot 0, length 0, nothing listed and every shortfall 0.
    pub fn empty() -> Timetable
        ensures { result ≡ empty_timetable }
    {
        let none = Entry::absent(0);
        Timetable {
            request: CoreSlot(0),
            length: 0,
            owners: [0; Timetable::LONGEST],
            base: CoreSlot(0),
            entries: [none; Timetable::IDS],
            starts: [0; Timetable::IDS],
        }
    }
}
