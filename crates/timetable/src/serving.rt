// Whom a slot serves, and an id's shortfall and slices there, by a sound timetable. Nothing here is refused: a slot before the request slot is the caller's to refuse.
ghost use Rattle.std.specs.Prelude.{eqb, get_or, length, true, MatchOption, ◌≡◌, ◌+◌, ◌*◌, ◌<◌, ◌≤◌};
ghost use Rattle.std.proofs.Math.Option.{none, some};
ghost use Rattle.slots.specs.Below.{first, count};
ghost use Rattle.slots.specs.Limits.{IDS};
ghost use Rattle.timetable.specs.Sound.{entries_in_range};
ghost use Rattle.timetable.specs.Timetable.{entry_of, lists, cyclic, owner_at, shortfall_at, slices_at, transition_shortfall};

use crate::figures::{over_slot, weight_of};
use crate::{Entry, SoundTimetable, Standing, Timetable};
use slots::{CoreSlot, SliceCount};

impl<'a> SoundTimetable<'a> {
    // The owner of a slot from the request slot on, or none where it is idle.
    pub fn owner_at(self, x: CoreSlot) -> Option<u8>
        requires { self.timetable.now.request.0 ≤ x.0 }
        ensures { MatchOption result (owner_at self.entry.timetable.now x ≡ none) (λ i. owner_at self.entry.timetable.now x ≡ some i) }
    {
        let t = self.timetable;
        if x.0 < t.base.0 {
            let n = (x.0 - t.request.0) as usize;
            return Some(t.owners[n]);
        }
        cyclic_owner(&t.entries, x.0 - t.base.0)
    }

    // How a listed id stands at the start of a slot from the request slot on: its shortfall, and the slices that it has had from the request slot up to there.
    pub fn standing_at(self, id: u8, x: CoreSlot) -> Standing
        requires { (id < IDS) × (lists self.timetable.now id ≡ true) × (self.timetable.now.request.0 ≤ x.0) }
        ensures { (result.shortfall ≡ shortfall_at self.entry.timetable.now id x) × (result.slices ≡ slices_at self.entry.timetable.now id x) }
    {
        let t = self.timetable;
        let e = t.entries[id as usize];
        if x.0 < t.base.0 {
            let n = (x.0 - t.request.0) as usize;
            let owners = &t.owners[..n];
            let start = t.starts[id as usize];
            return Standing {
                shortfall: transition_shortfall(owners, id, weight_of(e.period), start),
                slices: SliceCount(transition_slices(owners, id)),
            };
        }
        let since = x.0 - t.base.0;
        let owners = &t.owners[..t.length as usize];
        let before = transition_slices(owners, id);
        let slices = e.slices_after(since);
        Standing {
            shortfall: e.shortfall_after(since),
            slices: SliceCount(before + slices.0),
        }
    }
}

// The id that has the slot n slots after the base as a cyclic slot, or none.
fn cyclic_owner(entries: &[Entry; Timetable::IDS], n: u64) -> Option<u8>
    requires { entries_in_range entries.now ≡ true }
    ensures { MatchOption result (first IDS (λ i. cyclic (entry_of entries.now i) n) ≡ none) (λ i. first IDS (λ i. cyclic (entry_of entries.now i) n) ≡ some i) }
{
    for (id, e) in entries.iter().enumerate() {
        if e.takes(n) {
            return Some(id as u8);
        }
    }
    None
}

// The shortfall of an id, at a weight, after transition slots of these owners, from its start.
fn transition_shortfall(owners: &[u8], id: u8, weight: u16, start: u16) -> u16
    requires { start + weight * length owners.now < 65536 }
    ensures { result ≡ transition_shortfall owners.now id weight start (length owners.now) }
{
    let mut shortfall = start;
    for owner in owners {
        shortfall = over_slot(id == *owner, weight, shortfall);
    }
    shortfall
}

// How many of these transition slots are an id's own.
fn transition_slices(owners: &[u8], id: u8) -> u64
    ensures { result ≡ count (length owners.now) (λ k. eqb id (get_or owners.now k 0)) }
{
    owners.iter().filter(|owner| **owner == id).count() as u64
}
