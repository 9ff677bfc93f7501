// What each number says, and a refusal: its number and its place. Nothing here is refused.
#![tactic(auto)]

ghost use Rattle.std.specs.Prelude.{◌≡◌};
ghost use Rattle.numbers.specs.Numbers.{refusal};

// Why something was refused: a number of docs/RULES.md 7.1 and its place.
// (A number, no enum: `of` takes every one, and `only` of OfCode makes a refusal of whatever number an outcome has.)
#[derive(Clone, Copy)]
pub struct Refusal {
    pub number: u8,
    pub place: usize,
}

// What each number says.
impl Refusal {
    pub const ACCEPTED: u8 = 0;

    // timetable not sound
    pub const NOT_SOUND: u8 = 1;

    // answer area under 231 bytes
    pub const SMALL_AREA: u8 = 2;

    // field cut off, missing, unknown, out of order or of wrong length
    pub const BAD_FIELD: u8 = 3;

    // value out of range
    pub const OUT_OF_RANGE: u8 = 4;

    // id not above the one before
    pub const NOT_RISING: u8 = 5;

    // slot too early
    pub const TOO_EARLY: u8 = 6;

    // weights sum above 256
    pub const OVERFULL: u8 = 7;

    // shortfall at the request slot not below 256 x new R
    pub const BEHIND: u8 = 8;

    // a transition slot below T is missed, no length up to it gives a schedule
    pub const SLOT_MISSED: u8 = 9;

    // id not listed
    pub const NOT_LISTED: u8 = 10;

    // no length up to T gives a schedule, all were searched
    pub const LENGTHS_EXHAUSTED: u8 = 11;

    // The refusal with this number and place.
    pub fn of(number: u8, place: usize) -> Refusal
        ensures { result ≡ refusal number place }
    {
        Refusal { number, place }
    }
}
