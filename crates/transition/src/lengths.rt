// The search of lengths: each is searched for a cyclic placement, and the first that has one is the answer. Nothing is refused: the miss or exhaustion is answered.
ghost use Rattle.std.specs.Prelude.{◌≡◌, ◌≤◌};
ghost use Rattle.placement.specs.Placed.{Listing, Ranked};
ghost use Rattle.placement.specs.Placement.{placement};
ghost use Rattle.slots.specs.Limits.{LONGEST};
ghost use Rattle.transition.specs.Coded.{settled_of, Ready};
ghost use Rattle.transition.specs.Transition.{search_from};

use crate::{Ending, Plan, SearchEnd};
use placement::Order;

impl Plan {
    // The search of lengths 0, 1, 2 and so on up to the limit: the plan becomes the one with which the search ended, with the offsets placed where it ended well.
    pub fn search(&mut self, limit: u8) -> SearchEnd
        requires size { limit ≤ LONGEST }
        requires ready { Ready self.old }
        ensures { search_from limit 0 self.old ≡ record { ending = result.ending; tries = result.tries; plan = self.new } }
    {
        let mut order = Order::of(&self.entries);
        let mut n: u8 = 0;
        let mut tries: u8 = 0;
        // No for loop: docs/RULES.md 13.4 has it left by break, with a count of the tries.
        loop {
            let found = self.place(&mut order);
            tries += 1;
            if found {
                break SearchEnd {
                    ending: Ending::Found(n),
                    tries,
                };
            }
            if n == limit {
                break SearchEnd {
                    ending: Ending::Exhausted(n),
                    tries,
                };
            }
            if !self.longer(n) {
                break SearchEnd {
                    ending: Ending::Missed(n),
                    tries,
                };
            }
            n += 1;
        }
    }

    // Places the listed ids, whatever order they stand in, where there is a placement, and says whether there is one. The order becomes theirs.
    fn place(&mut self, order: &mut Order) -> bool
        requires listing { Listing self.old.entries order.old.ranks order.old.count }
        requires ready { Ready self.old }
        ensures ranked { Ranked self.old.entries order.new.ranks order.new.count }
        ensures settled { (result, self.new) ≡ settled_of self.old (placement self.old.entries) }
    {
        order.reorder(&self.entries);
        let Some(offsets) = order.place() else {
            return false;
        };
        for (id, e) in self.entries.iter_mut().enumerate() {
            e.offset = offsets[id];
        }
        true
    }
}
