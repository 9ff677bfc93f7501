// Cyclic placement: rule 4, docs/RULES.md 4.4. Each listed partition, in order, takes the largest free offset up to its last offset.
#![tactic(auto)]

ghost use Rattle.std.specs.Prelude.{◌≡◌};
ghost use Rattle.placement.specs.Placed.{demands_of, placed_of, InOrderOfSome};

use taken::Taken;
use timetable::Timetable;

pub mod ranks; // ranks.rt: the demands of the listed partitions, in order
mod taken; // taken.rt: the slots that are taken

pub use ranks::Order;

impl Order {
    // The cyclic placement of the demands: the offset of each id's place, 0 where the id has none; or none, where a demand has no free offset.
    pub fn place(&self) -> Option<[u8; Timetable::IDS]>
        requires { InOrderOfSome self.now.ranks self.now.count }
        ensures { result ≡ placed_of (demands_of self.now.ranks self.now.count) }
    {
        let mut taken = Taken::none();
        let mut offsets = [0; Timetable::IDS];
        for rank in &self.ranks[..self.count] {
            let offset = taken.take_last(ranks::period(*rank), ranks::last(*rank))?;
            offsets[ranks::id(*rank)] = offset as u8;
        }
        Some(offsets)
    }
}
