// The stages before the search, in the order of docs/RULES.md 7.2, and the plan with which the search begins. The lowest stage wins.
ghost use Rattle.std.specs.Prelude.{IfErr, IfOk, MatchResult, OnOk, false, true, ◌≡◌, ◌≤◌};
ghost use Rattle.change.specs.Entered.{entered};
ghost use Rattle.change.specs.Periods.{ArePeriods};
ghost use Rattle.change.specs.Stages.{asked_bound, bound_before, entering, is_behind, stage_behind, stage_overfull, stages_first, stages_listed};
ghost use Rattle.numbers.specs.Chain.{Passed, Refused, first_of};
ghost use Rattle.numbers.specs.Numbers.{NOT_SOUND, refusal};
ghost use Rattle.records.specs.Request.{read_request, requested};
ghost use Rattle.slots.specs.Limits.{IDS};
ghost use Rattle.timetable.specs.Sound.{entries_in_range, entry_in_range, is_sound};
ghost use Rattle.timetable.specs.Timetable.{each, is_listed, shortfall_after};

use numbers::Refusal;
use records::read::read_request;
use records::{Ask, Request};
use timetable::{Entry, SoundTimetable, Timetable, weight_of};

// The first stage: the timetable as one that is known to be sound.
pub fn sound_stage<'a>(t: &'a Timetable) -> Result<SoundTimetable<'a>, Refusal>
    ensures { MatchResult result (λ s. s.timetable.now ≡ t.now) (λ r. (is_sound t.now ≡ false) × (r ≡ refusal NOT_SOUND 0)) }
{
    t.sound().ok_or(Refusal::of(Refusal::NOT_SOUND, 0))
}

// The stages of a sound timetable that need no entries, 2, the fields and 6, and the request that passed them.
pub fn first_stages(t: SoundTimetable, request: &[u8], area: usize) -> Result<Request, Refusal>
    ensures passed { OnOk result (first_of (stages_first t.entry.timetable.now (read_request request.now) area) ≡ Passed) }
    ensures asked { IfOk result (λ q. q ≡ requested (read_request request.now)) }
    ensures refused { IfErr result (λ r. first_of (stages_first t.entry.timetable.now (read_request request.now) area) ≡ Refused r) }
{
    if area < Timetable::AREA {
        return Err(Refusal::of(Refusal::SMALL_AREA, 0));
    }
    let asked = read_request(request)?;
    if asked.slot.0 < t.timetable.base.0 {
        return Err(Refusal::of(Refusal::TOO_EARLY, 0));
    }
    Ok(asked)
}

// Lets each id enter the change, from the entries at the base: with its new period and bound, and its shortfall at the request slot.
pub fn enter_all(entries: &mut [Entry; Timetable::IDS], elapsed: u64, asks: &[Ask; Timetable::IDS])
    requires { entries_in_range entries.old ≡ true }
    ensures { entries.new ≡ each (entered elapsed asks.now) IDS entries.old }
{
    for (id, e) in entries.iter_mut().enumerate() {
        *e = enter(*e, elapsed, asks[id]);
    }
}

// Stages 7 and 8, over the entries at the request slot.
pub fn listed_stages(entries: &[Entry; Timetable::IDS]) -> Result<(), Refusal>
    requires { ArePeriods entries.now }
    ensures { MatchResult result (λ _. first_of (stages_listed entries.now) ≡ Passed) (λ r. first_of (stages_listed entries.now) ≡ Refused r) }
{
    overfull(entries)?;
    behind(entries)
}

// The entry with which an id enters the change, with the shortfall that it has: the new period and bound; none of these where it is not asked for.
fn enter(old: Entry, elapsed: u64, ask: Ask) -> Entry
    requires { is_listed old ≡ true → entry_in_range old ≡ true }
    ensures { result ≡ entering old (shortfall_after old elapsed) ask }
{
    let shortfall = old.shortfall_after(elapsed);
    if ask.period == 0 {
        return Entry::absent(shortfall);
    }
    Entry {
        period: ask.period,
        offset: 0,
        bound: asked_bound(old, ask),
        shortfall,
    }
}

// The bound that is asked: the R of the field, or the R as before where the field was short.
fn asked_bound(old: Entry, ask: Ask) -> u8
    ensures { result ≡ asked_bound old ask }
{
    if ask.bound == 0 {
        return bound_before(old);
    }
    ask.bound
}

// The R as before: the one with which the timetable lists the id, and 1 for an id that it does not list.
fn bound_before(old: Entry) -> u8
    ensures { result ≡ bound_before old }
{
    if old.is_listed() {
        return old.bound;
    }
    1
}

// Stage 7: it names the id at which the running sum of the weights, ids rising, first passes 256.
fn overfull(entries: &[Entry; Timetable::IDS]) -> Result<(), Refusal>
    requires { ArePeriods entries.now }
    ensures { MatchResult result (λ _. stage_overfull entries.now ≡ Passed) (λ r. stage_overfull entries.now ≡ Refused r) }
{
    let mut sum: u16 = 0;
    for (id, e) in entries.iter().enumerate() {
        sum += weight_of(e.period);
        if Timetable::WHOLE < sum {
            return Err(Refusal::of(Refusal::OVERFULL, id));
        }
    }
    Ok(())
}

// Stage 8: it names the lowest listed id whose shortfall is not below 256 R.
fn behind(entries: &[Entry; Timetable::IDS]) -> Result<(), Refusal>
    ensures { MatchResult result (λ _. stage_behind entries.now ≡ Passed) (λ r. stage_behind entries.now ≡ Refused r) }
{
    match entries.iter().position(|e| is_behind(*e)) {
        Some(id) => Err(Refusal::of(Refusal::BEHIND, id)),
        None => Ok(()),
    }
}

// Whether a listed entry's shortfall is not below 256 R.
fn is_behind(e: Entry) -> bool
    ensures { result ≡ is_behind e }
{
    e.is_listed() && Timetable::WHOLE * (e.bound as u16) <= e.shortfall
}
