// The change of a timetable by a request, and the two queries. Nothing is assumed checked: bad input is refused by number.
#![tactic(auto)]

ghost use Rattle.std.specs.Prelude.{IfErr, IfOk, length, ◌≡◌, ◌≢◌, ◌≤◌};
ghost use Rattle.change.specs.Change.{answer, area_after, outcome, outcome_of, written};
ghost use Rattle.change.specs.Told.{told};
ghost use Rattle.numbers.specs.Numbers.{ACCEPTED};
ghost use Rattle.slots.specs.Limits.{AREA, LONGEST};

use numbers::Refusal;
use records::write::write_answer;
use slots::SliceCount;
use timetable::{SoundTimetable, Timetable};

mod before; // before.rt: the stages before the search
mod deciding; // deciding.rt: what a request gets from a timetable that is known to be sound
pub mod queries; // queries.rt: the owner query and the standing query

use deciding::grant;

// What is decided of a request: a number of docs/RULES.md 7.1 and its place, the lengths searched, and the timetable in force from now on.
// (No Result: a refusal hands back a timetable too, and OfCode of the promises speaks of the number and the timetable alike.)
#[derive(Clone, Copy)]
pub struct Answer {
    pub number: u8,
    pub place: usize,
    pub tries: u8,
    pub timetable: Timetable,
}

// A request that is refused: why, and the lengths searched.
#[derive(Clone, Copy)]
pub struct Refused {
    pub refusal: Refusal,
    pub tries: u8,
}

// A refusal before the search: no length was searched.
impl From<Refusal> for Refused {
    ghost from_gives = { λ r e. e ≡ record { refusal = r; tries = 0 } };

    fn from(refusal: Refusal) -> Refused {
        Refused { refusal, tries: 0 }
    }
}

// What a request gets: its answer, with the bytes written.
#[derive(Clone, Copy)]
pub struct Outcome {
    pub number: u8,
    pub place: usize,
    pub tries: u8,
    pub written: usize,
    pub timetable: Timetable,
}

// What the owner query gets: the owner, or 255 for idle.
#[derive(Clone, Copy)]
pub struct OwnerAnswer {
    pub number: u8,
    pub place: usize,
    pub owner: u8,
}

// What the standing query gets: the shortfall at the slot's start, and the slices had from the request slot up to there.
#[derive(Clone, Copy)]
pub struct StandingAnswer {
    pub number: u8,
    pub place: usize,
    pub shortfall: u16,
    pub slices: SliceCount,
}

// A timetable is changed by a request: the transition and cyclic slots of docs/RULES.md 4, written to the answer area, or a refusal that leaves both.
pub fn change(t: &Timetable, request: &[u8], area: &mut [u8]) -> Outcome
    ensures { (result ≡ outcome t.now request.now area.old) × (area.new ≡ area_after t.now request.now area.old) }
{
    let mut next = *t;
    let decided = decided(&mut next, request, area.len());
    write_told(next, decided, area)
}

// The same for a timetable that is known to be sound, which is not tested again: a program that holds only what a change returned, or the empty timetable, has no other.
pub fn change_sound(t: SoundTimetable, request: &[u8], area: &mut [u8]) -> Outcome
    ensures { (result ≡ outcome t.entry.timetable.now request.now area.old)
        × (area.new ≡ area_after t.entry.timetable.now request.now area.old) }
{
    let mut next = *t.timetable;
    let granted = grant(&mut next, request, area.len());
    write_told(next, granted, area)
}

// The answer to a request with an answer area of a given size. No byte is written: what is decided can still be dropped.
pub fn decide(t: &Timetable, request: &[u8], area: usize) -> Answer
    ensures { result ≡ answer t.now request.now area }
{
    let mut timetable = *t;
    match decided(&mut timetable, request, area) {
        Ok(tries) => Answer {
            number: Refusal::ACCEPTED,
            place: 0,
            tries,
            timetable,
        },
        Err(refused) => Answer {
            number: refused.refusal.number,
            place: refused.refusal.place,
            tries: refused.tries,
            timetable,
        },
    }
}

// Any timetable is changed by a request and tells how many lengths were searched, or it refuses the request and stays as it was: as it does where it is not sound. No byte of an area is touched. (Public for the board alone.)
pub fn decided(t: &mut Timetable, request: &[u8], area: usize) -> Result<u8, Refused>
    ensures told { told t.new result ≡ answer t.old request.now area }
    ensures refused { IfErr result (λ r. r.refusal.number ≢ ACCEPTED) }
{
    before::sound_stage(t)?;
    grant(t, request, area)
}

// What was decided as it is returned, once the record of an acceptance is written.
fn write_told(t: Timetable, decided: Result<u8, Refused>, area: &mut [u8]) -> Outcome
    requires fits { IfOk decided (λ _. (AREA ≤ length area.old) × (t.length ≤ LONGEST)) }
    requires refused { IfErr decided (λ r. r.refusal.number ≢ ACCEPTED) }
    ensures { (result ≡ outcome_of (told t decided)) × (area.new ≡ written (told t decided) area.old) }
{
    match decided {
        Ok(tries) => Outcome {
            number: Refusal::ACCEPTED,
            place: 0,
            tries,
            written: write_answer(area, &t),
            timetable: t,
        },
        Err(refused) => Outcome {
            number: refused.refusal.number,
            place: refused.refusal.place,
            tries: refused.tries,
            written: 0,
            timetable: t,
        },
    }
}
