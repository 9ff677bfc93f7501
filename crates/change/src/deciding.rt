// What a request gets from a timetable that is known to be sound: the stages before the search, and then the search of lengths.
ghost use Rattle.std.specs.Prelude.{IfErr, true, ◌≡◌, ◌≢◌, ◌≤◌};
ghost use Rattle.change.specs.Change.{answer, answer_of, new_timetable, search_of, shortfalls_of, start_plan};
ghost use Rattle.change.specs.Told.{told};
ghost use Rattle.numbers.specs.Numbers.{ACCEPTED};
ghost use Rattle.slots.specs.Limits.{LAST_SLOT, LONGEST};
ghost use Rattle.timetable.specs.Sound.{is_sound};
ghost use Rattle.transition.specs.Coded.{Ready};

use crate::{Refused, before};
use numbers::Refusal;
use records::Request;
use slots::CoreSlot;
use timetable::{Entry, Timetable};
use transition::{Ending, Plan};

// A sound timetable is changed by a request and tells how many lengths were searched; or it refuses the request and stays as it was. No byte of an area is touched. (It is changed in place: handed back in the Result, it was copied five times.)
pub fn grant(t: &mut Timetable, request: &[u8], area: usize) -> Result<u8, Refused>
    requires { is_sound t.old ≡ true }
    ensures told { told t.new result ≡ answer t.old request.now area }
    ensures refused { IfErr result (λ r. r.refusal.number ≢ ACCEPTED) }
{
    let sound = t.known_sound();
    let asked = before::first_stages(sound, request, area)?;
    let mut plan = Plan {
        owners: [0; Timetable::LONGEST],
        entries: t.entries,
    };
    before::enter_all(&mut plan.entries, asked.slot.0 - t.base.0, &asked.asks);
    before::listed_stages(&plan.entries)?;
    searched(t, &asked, &mut plan)
}

// What the search of lengths gives a request that passed the stages, from the plan of length 0.
fn searched(t: &mut Timetable, asked: &Request, plan: &mut Plan) -> Result<u8, Refused>
    requires in_range { (asked.now.slot.0 ≤ LAST_SLOT) × (asked.now.limit ≤ LONGEST) }
    requires start { plan.old ≡ start_plan t.old asked.now }
    requires ready { Ready plan.old }
    ensures told { told t.new result ≡ answer_of t.old asked.now (search_of t.old asked.now) }
    ensures refused { IfErr result (λ r. r.refusal.number ≢ ACCEPTED) }
{
    let starts = shortfalls_of(&plan.entries);
    let found = plan.search(asked.limit);
    match found.ending {
        Ending::Found(length) => {
            enter_force(t, asked, starts, length, plan);
            Ok(found.tries)
        }
        Ending::Missed(n) => Err(wanting(Refusal::SLOT_MISSED, n, found.tries)),
        Ending::Exhausted(n) => Err(wanting(Refusal::LENGTHS_EXHAUSTED, n, found.tries)),
    }
}

// The shortfalls of the entries, by id.
fn shortfalls_of(entries: &[Entry; Timetable::IDS]) -> [u16; Timetable::IDS]
    ensures { result ≡ shortfalls_of entries.now }
{
    std::array::from_fn(|id| entries[id].shortfall)
}

// The new timetable comes into force: the request slot, the transition, its base, request slot + length, and the starts.
fn enter_force(
    t: &mut Timetable,
    asked: &Request,
    starts: [u16; Timetable::IDS],
    length: u8,
    plan: &Plan,
)
    requires { (asked.now.slot.0 ≤ LAST_SLOT) × (length ≤ LONGEST) }
    ensures { t.new ≡ new_timetable asked.now starts length plan.now }
{
    t.request = asked.slot;
    t.length = length;
    t.owners = plan.owners;
    t.base = CoreSlot(asked.slot.0 + (length as u64));
    t.entries = plan.entries;
    t.starts = starts;
}

// The refusal for want of a schedule: its place is the length at which the search ended.
fn wanting(number: u8, n: u8, tries: u8) -> Refused
    ensures { (result.refusal.number ≡ number) × (result.refusal.place ≡ n) × (result.tries ≡ tries) }
{
    Refused {
        refusal: Refusal::of(number, n as usize),
        tries,
    }
}
