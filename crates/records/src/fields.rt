// The fields of a record: whether one stands at a place, its bytes, and writing its parts. Nothing here is refused.
ghost use Rattle.std.specs.Prelude.{length, [], ◌∷◌, ◌≡◌, ◌+◌, ◌≤◌, ◌<◌};
ghost use Rattle.std.proofs.lemmas.List.Edits.{sets};
ghost use Rattle.records.specs.Request.{content_at, is_field, number_at};
ghost use Rattle.records.specs.Written.{number_bytes};

// Whether at a place stands a field of this tag and length, not cut off. (Public for the reader of answers alone.)
pub fn is_field(s: &[u8], at: usize, tag: u8, size: u8) -> bool
    ensures { result ≡ is_field s.now at tag size }
{
    if s.len() < at {
        return false;
    }
    if s.len() - at < 3 + (size as usize) {
        return false;
    }
    if s[at] != tag {
        return false;
    }
    number_at(s, at + 1, 2) == (size as u64)
}

// Byte n of the content of the field at a place. (Public for the reader of answers alone.)
pub fn content_at(s: &[u8], at: usize, n: usize) -> u8
    requires { at + 3 + n < length s.now }
    ensures { result ≡ content_at s.now at n }
{
    s[at + 3 + n]
}

// The number that `count` bytes from a place write, big-endian.
pub fn number_at(s: &[u8], from: usize, count: usize) -> u64
    requires { (from + count ≤ length s.now) × (count ≤ 8) }
    ensures { result ≡ number_at s.now from count }
{
    let mut number: u64 = 0;
    for b in &s[from..from + count] {
        number = 256 * number + (*b as u64);
    }
    number
}

// Writes the tag and the length of a field. (Public for the writer of requests alone.)
pub fn put_head(area: &mut [u8], at: usize, tag: u8, size: u8)
    requires { at + 3 ≤ length area.old }
    ensures { area.new ≡ sets area.old at (tag ∷ 0 ∷ size ∷ []) }
{
    area[at..at + 3].copy_from_slice(&[tag, 0, size]);
}

// Writes the last `width` bytes of a number, high byte first. (Public for the writer of requests alone.)
pub fn put_number(area: &mut [u8], at: usize, width: usize, number: u64)
    requires { at + width ≤ length area.old }
    ensures { area.new ≡ sets area.old at (number_bytes number width) }
{
    // Not to_be_bytes: the contract holds for every width, above 8 too.
    let mut rest = number;
    for n in (0..width).rev() {
        area[at + n] = (rest % 256) as u8;
        rest /= 256;
    }
}
