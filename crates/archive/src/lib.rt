// Archived answers read and requests written, for the lab network. What the controller does not do itself stands here.
#![tactic(auto)]

ghost use Rattle.std.specs.Prelude.{◌≡◌};
ghost use Rattle.archive.specs.AnswerRead.{no_schedule};

use timetable::Timetable;

pub mod answer; // answer.rt: what stands at a place of an answer, and from there on
pub mod writer; // writer.rt: writing a request
pub mod reader; // reader.rt: a reader of answers that keeps the record and its place, and reading a whole answer

// A field of an answer: the transition's length; its owners, of which this tells how many; or an id with its offset.
#[derive(Clone, Copy)]
pub enum AnswerField {
    Length(u8),
    Owners(u8),
    Offset(u8, u8),
}

// A field that stands at a place, and the place after it. (The place first: so it lies where a refusal's lies, and a step is told from a refusal without a byte moved.)
#[derive(Clone, Copy)]
pub struct AnswerStep {
    pub next: usize,
    pub field: AnswerField,
}

// What an answer says: the transition's length and its owners, and the offset of each id that it lists. (Arrays with a length beside them: there is no heap. The arrays first: behind a byte they
// lay over the bounds of what is moved at once, and reading an answer took a third longer.)
#[derive(Clone, Copy)]
pub struct Schedule {
    pub owners: [u8; Timetable::LONGEST],
    pub offsets: [Option<u8>; Timetable::IDS],
    pub length: u8,
}

impl Schedule {
    // A schedule that says nothing.
    pub fn empty() -> Schedule
        ensures { result ≡ no_schedule }
    {
        Schedule {
            length: 0,
            owners: [0; Timetable::LONGEST],
            offsets: [None; Timetable::IDS],
        }
    }
}
