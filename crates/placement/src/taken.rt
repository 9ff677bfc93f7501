// The slots of one cycle that are taken. Only this file knows how they are held: one bit a slot.
ghost use Rattle.std.specs.Prelude.{true, [], ◌≡◌, ℕ, ◌<◌, ◌≤◌};
ghost use Rattle.placement.specs.Placed.{Says, Finds, TakenToo};
ghost use Rattle.slots.specs.Limits.{WHOLE};
ghost use Rattle.timetable.specs.Marks.{WORD, AreSlots, FreeUpTo};
ghost use Rattle.timetable.specs.Sound.{is_period};

use timetable::Timetable;

// A word marks this many slots.
const WORD: usize = 64;

// This many words mark the slots of one cycle.
const WORDS: usize = Timetable::WHOLE as usize / WORD;

// Which slots of the cycle are taken: slot n is bit n % 64 of word n / 64.
#[derive(Clone, Copy)]
pub struct Taken {
    pub bits: [u64; WORDS],
}

impl Taken {
    // No slot is taken.
    pub fn none() -> Taken
        ensures { Says result.bits [] }
    {
        Taken { bits: [0; WORDS] }
    }

    // The largest free offset up to the last offset, whose slots are then taken too.
    pub fn take_last(&mut self, period: usize, last: usize) -> Option<usize>
        requires { (is_period period ≡ true) × (last < period) }
        ensures finds { Finds self.old.bits last result }
        ensures by_index { (o : ℕ) → result ≡ Some o → TakenToo self.old.bits period o self.new.bits }
    {
        let offset = self.last_free(last)?;
        self.mark(period, offset);
        Some(offset)
    }

    // The largest free offset up to the last offset, a word at a time: the taken slots above it, from the top one of those left, are the leading zeros.
    // (A `for` over the words from the last one down is no plainer: the first of them is looked at up to the last offset only, the others whole.)
    fn last_free(&self, last: usize) -> Option<usize>
        requires { last < WHOLE }
        ensures finds { Finds self.now.bits last result }
        ensures by_index { (o : ℕ) → result ≡ Some o → o ≤ last }
    {
        let mut left = last + 1;
        while 0 < left {
            let top = left - 1;
            let word = top / WORD;
            let free = free_up_to(self.bits[word], top % WORD);
            if free != 0 {
                return Some(top - (u64::leading_zeros(free) as usize));
            }
            left = word * WORD;
        }
        None
    }

    // The slots of the offset are taken, those of a word at once.
    // (A `for` over `step_by` makes a search of lengths 6 % longer, in instructions.)
    fn mark(&mut self, period: usize, offset: usize)
        requires { (is_period period ≡ true) × (offset < period) }
        ensures { TakenToo self.old.bits period offset self.new.bits }
    {
        let slots = slots_in_word(period, offset);
        let stride = (period + (WORD - 1)) / WORD;
        let mut word = offset / WORD;
        while word < WORDS {
            self.bits[word] |= slots;
            word += stride;
        }
    }
}

// The free slots of a word up to the top one, which is shifted to the highest bit.
fn free_up_to(marks: u64, top: usize) -> u64
    requires { top < WORD }
    ensures { FreeUpTo marks top result }
{
    !marks << (WORD - 1 - top)
}

// The slots of the offset in a word that has any of them: one for a period from 64 on, and with each halving of the period as many again, half as far apart.
// (A `for` is no plainer: how far apart the slots stand halves, and is what the loop tests.)
fn slots_in_word(period: usize, offset: usize) -> u64
    requires { (is_period period ≡ true) × (offset < period) }
    ensures { AreSlots period offset result }
{
    let mut slots = 1 << (offset % WORD);
    let mut apart = WORD;
    while period < apart {
        apart /= 2;
        slots |= slots << apart;
    }
    slots
}
