// The slots of one cycle, one bit each, for other crates: slot n is bit n % 64 of word n / 64. Nothing here is refused.
// (`slots_in_word` is the soundness test's own, handed on from soundness.rt. The placement has code of its own, docs/RULES.md 13.4.)
ghost use Rattle.std.specs.Prelude.{◌≡◌, ◌≤◌};
ghost use Rattle.slots.specs.Limits.{WHOLE};
ghost use Rattle.timetable.specs.Marks.{stride};

pub use crate::soundness::{WORD, WORDS, slots_in_word};

// Which slots of the cycle are marked.
pub type SlotBits = [u64; WORDS];

// How many words apart an offset's slots stand, for a period of the cycle.
pub fn stride(period: usize) -> usize
    requires { period ≤ WHOLE }
    ensures { result ≡ stride period }
{
    (period + (WORD - 1)) / WORD
}

#[cfg(test)]
mod tests {
    use super::*;

    // Worked out by hand: bit n is slot n of word 0, 64 + n of word 1, and so on.
    #[test]
    fn slots_of_an_offset(rt: HostRuntime) {
        assert_eq!(rt; slots_in_word(1, 0), 0xffff_ffff_ffff_ffff, "all");
        assert_eq!(rt; slots_in_word(2, 1), 0xaaaa_aaaa_aaaa_aaaa, "1, 3 to 63");
        assert_eq!(rt;
            slots_in_word(16, 5),
            0x0020_0020_0020_0020,
            "5, 21, 37, 53"
        );
        assert_eq!(rt; slots_in_word(64, 63), 0x8000_0000_0000_0000, "63");
        assert_eq!(rt; slots_in_word(128, 71), 0x80, "71, and 199 in word 3");
        assert_eq!(rt; slots_in_word(256, 255), 0x8000_0000_0000_0000, "255");
    }

    // Up to period 64 an offset has slots in every word, with 128 in every other, with 256 in one of four.
    #[test]
    fn words_of_an_offset(rt: HostRuntime) {
        assert_eq!(rt; stride(1), 1);
        assert_eq!(rt; stride(64), 1);
        assert_eq!(rt; stride(128), 2);
        assert_eq!(rt; stride(256), 4);
    }
}
