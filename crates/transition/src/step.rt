// One more transition slot: to the listed id with the least room, ties to the lower id. Nothing here is refused: a slot that is missed is answered as not given.
ghost use Rattle.std.specs.Prelude.{true, ◌≡◌, ◌<◌};
ghost use Rattle.slots.specs.Limits.{IDS, LONGEST};
ghost use Rattle.timetable.specs.Sound.{entries_in_range};
ghost use Rattle.transition.specs.Coded.{next_of, owner_of};
ghost use Rattle.transition.specs.Transition.{longer, over_all};

use crate::Plan;
use timetable::{over_slot, weight_of};

impl Plan {
    // Gives transition slot n to the most urgent, or changes nothing where it is missed.
    pub(crate) fn longer(&mut self, n: u8) -> bool
        requires { (n < LONGEST) × (entries_in_range self.old.entries ≡ true) }
        ensures { (result, self.new) ≡ next_of self.old (longer n self.old) }
    {
        let Some(u) = self.most_urgent() else {
            return false;
        };
        self.owners[n as usize] = u as u8;
        self.over_all(u);
        true
    }

    // The listed id with the least room, ties to the lower id; or nobody, where none is listed or the slot is missed: another one has no room either. No room
    // is as large as that of nobody.
    fn most_urgent(&self) -> Option<usize>
        requires { entries_in_range self.now.entries ≡ true }
        ensures { result ≡ owner_of self.now.entries }
    {
        let mut urgent = None;
        let mut least = u16::MAX;
        let mut pressed: usize = 0;
        for (id, e) in self.entries.iter().enumerate() {
            if e.is_listed() {
                let room = e.room();
                if room < least {
                    urgent = Some(id);
                    least = room;
                }
                if room == 0 {
                    pressed += 1;
                }
            }
        }
        if 1 < pressed {
            return None;
        }
        urgent
    }

    // Takes every entry over one slot that goes to u: all shortfalls rise by their weights, and that of u is then paid.
    fn over_all(&mut self, u: usize)
        requires { (entries_in_range self.old.entries ≡ true) × (u < IDS) }
        ensures { self.new ≡ record { owners = self.old.owners; entries = over_all self.old.entries u } }
    {
        let e = self.entries[u];
        let own = over_slot(true, weight_of(e.period), e.shortfall);
        for e in self.entries.iter_mut() {
            e.shortfall = over_slot(false, weight_of(e.period), e.shortfall);
        }
        self.entries[u].shortfall = own;
    }
}
