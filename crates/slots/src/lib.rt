// The two clocks of docs/RULES.md 2.8, as two types: neither can be read as the other.
#![tactic(auto)]

// A slot of the core, by its number, counted from 0.
#[derive(Clone, Copy)]
pub struct CoreSlot(pub u64);

// How many slices one partition has had: a count on the partition's own clock.
#[derive(Clone, Copy)]
pub struct SliceCount(pub u64);
