// The figures of one entry: its room and last offset, the weight of its period, and what it has been owed and given n slots after the base. Nothing here is refused.
ghost use Rattle.std.specs.Prelude.{true, ◌≡◌, ◌+◌, ◌-◌, ◌%◌, ◌<◌};
ghost use Rattle.slots.specs.Clocks.{slice_count};
ghost use Rattle.slots.specs.Limits.{WHOLE};
ghost use Rattle.slots.specs.Shortfall.{over_slot, weight_of};
ghost use Rattle.timetable.specs.Sound.{entry_in_range, is_period};
ghost use Rattle.timetable.specs.Timetable.{is_listed, room, last_offset, cyclic, shortfall_after, slices_after};

use crate::{Entry, Timetable};
use slots::SliceCount;

// (That an entry is in range is a clause and no type: a timetable holds entries that may not be, since its soundness is what is tested.)
impl Entry {
    // Whether the entry is listed: it has a period.
    pub fn is_listed(self) -> bool
        ensures { result ≡ is_listed self }
    {
        0 < self.period
    }

    // Its room: the further idle slots it can bear. Dividing by the weight, 256 / period, is multiplying by the period and dividing by 256.
    pub fn room(self) -> u16
        requires { entry_in_range self ≡ true }
        ensures { result ≡ room self }
    {
        let limit = Timetable::WHOLE * (self.bound as u16);
        let left = (limit - 1 - self.shortfall) as u32;
        (left * (self.period as u32) / (Timetable::WHOLE as u32)) as u16
    }

    // Its last offset: the smaller of room and period - 1.
    pub fn last_offset(self) -> u16
        requires { entry_in_range self ≡ true }
        ensures { result ≡ last_offset self }
    {
        self.room().min(self.period - 1)
    }

    // Whether the slot n slots after the base is its own.
    pub fn takes(self, n: u64) -> bool
        requires { is_listed self ≡ true → entry_in_range self ≡ true }
        ensures { result ≡ cyclic self n }
    {
        if self.period == 0 {
            return false;
        }
        phase(n, self.period) == (self.offset as u64)
    }

    // Its shortfall n slots after the base, without a walk: one that is not listed keeps it; else nothing is paid before the first own slot, and each period after it repeats.
    pub fn shortfall_after(self, n: u64) -> u16
        requires { is_listed self ≡ true → entry_in_range self ≡ true }
        ensures { result ≡ shortfall_after self n }
    {
        if self.period == 0 {
            return self.shortfall;
        }
        let w = weight_of(self.period);
        let offset = self.offset as u64;
        if n <= offset {
            return self.shortfall + (n as u16) * w;
        }
        let since = phase(n - offset - 1, self.period) as u16;
        let owed = self.shortfall + (self.offset as u16) * w + w;
        after_own(owed, since * w)
    }

    // The slices that it has had in the n slots from the base, without a walk over them.
    pub fn slices_after(self, n: u64) -> SliceCount
        requires { entry_in_range self ≡ true }
        ensures { result ≡ slice_count (slices_after self n) }
    {
        let offset = self.offset as u64;
        if n <= offset {
            return SliceCount(0);
        }
        SliceCount((n - offset - 1) / (self.period as u64) + 1)
    }
}

// The weight of a period, 256 / period; 0 for an id that is not listed. A period is a power of two, so a shift divides by it, and 16 zeros shift all away.
pub fn weight_of(period: u16) -> u16
    requires { 0 < period → is_period period ≡ true }
    ensures { result ≡ weight_of period }
{
    ((Timetable::WHOLE as u32) >> u16::trailing_zeros(period)) as u16
}

// How far n slots reach into a period: the remainder by a power of two is its lowest bits.
fn phase(n: u64, period: u16) -> u64
    requires { is_period period ≡ true }
    ensures { result ≡ n % period }
{
    n & ((period as u64) - 1)
}

// The shortfall over one slot: it rises by the weight, and an own slot then pays.
pub fn over_slot(own: bool, weight: u16, shortfall: u16) -> u16
    requires { shortfall + weight < 65536 }
    ensures { result ≡ over_slot own weight shortfall }
{
    let owed = shortfall + weight;
    if own {
        return after_own(owed, 0);
    }
    owed
}

// What is owed some slots after an own slot: it pays 256 of what was owed, surplus is not kept, and the slots since add their weight.
pub fn after_own(owed: u16, since: u16) -> u16
    requires { owed + since < 65536 }
    ensures { result ≡ owed - WHOLE + since }
{
    owed.saturating_sub(Timetable::WHOLE) + since
}
