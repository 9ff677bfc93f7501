// The transition: rules 2 and 3, docs/RULES.md 4.2 and 4.3. Lengths are searched one after the other; each further slot goes to the most urgent. Nothing here is refused.
#![tactic(auto)]

use timetable::{Entry, Timetable};

mod lengths; // lengths.rt: the search of lengths
mod step; // step.rt: one more transition slot

// What a length has reached: the owners of the transition slots so far, and each id's entry with its shortfall there.
#[derive(Clone, Copy)]
pub struct Plan {
    pub owners: [u8; Timetable::LONGEST],
    pub entries: [Entry; Timetable::IDS],
}

// How the search of lengths ended.
#[derive(Clone, Copy)]
pub enum Ending {
    // A placement was found at this length.
    Found(u8),
    // This transition slot was missed: no longer length can be reached.
    Missed(u8),
    // Every length up to this one was searched in vain.
    Exhausted(u8),
}

// The ending, and the number of lengths searched.
#[derive(Clone, Copy)]
pub struct SearchEnd {
    pub ending: Ending,
    pub tries: u8,
}
