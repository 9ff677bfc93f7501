// What a probe asks for: an entry point of the library, by the number that docs/PROBE.md gives it.

// The kinds of probe.
#[derive(Clone, Copy)]
pub enum Kind {
    Change,
    Owner,
    Standing,
    Empty,
    Answer,
    Request,
    Field,
}

// A number that is no kind's.
#[derive(Clone, Copy)]
pub struct UnknownKind;

impl TryFrom<u8> for Kind {
    type Error = UnknownKind;

    fn try_from(number: u8) -> Result<Kind, UnknownKind> {
        match number {
            1 => Ok(Kind::Change),
            2 => Ok(Kind::Owner),
            3 => Ok(Kind::Standing),
            4 => Ok(Kind::Empty),
            5 => Ok(Kind::Answer),
            6 => Ok(Kind::Request),
            7 => Ok(Kind::Field),
            _ => Err(UnknownKind),
        }
    }
}
