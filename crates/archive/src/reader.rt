// A reader of answers: it keeps the record and its place between fields. Its functions are thin, over those of answer.rt.
ghost use Rattle.std.specs.Prelude.{◌≡◌};
ghost use Rattle.archive.specs.AnswerRead.{field_at, field_of, no_schedule, place_after, told_owner, read_answer, read_from, read_into};

use super::{AnswerField, Schedule, answer};
use numbers::Refusal;

// The record's bytes, and the place of the next field.
#[derive(Clone, Copy)]
pub struct AnswerReader<'a> {
    pub bytes: &'a [u8],
    pub at: usize,
}

impl<'a> AnswerReader<'a> {
    // A reader at the record's start.
    pub fn new(bytes: &'a [u8]) -> AnswerReader<'a>
        ensures { (result.bytes ≡ bytes.entry) × (result.at ≡ 0) }
    {
        AnswerReader { bytes, at: 0 }
    }

    // What stands at the reader's place: a field, nothing more, or the refusal. It moves on behind a field, and else stays.
    pub fn next(&mut self) -> Result<Option<AnswerField>, Refusal>
        ensures { (result ≡ field_of (field_at self.old.bytes.now self.old.at)) × (self.new.bytes ≡ self.old.bytes) × (self.new.at ≡ place_after self.old.at (field_at self.old.bytes.now self.old.at)) }
    {
        let Some(step) = answer::field_at(self.bytes, self.at)? else {
            return Ok(None);
        };
        self.at = step.next;
        Ok(Some(step.field))
    }

    // The owner of transition slot n, or 0 where the transition does not have it. To be asked once the owners were read.
    pub fn owner(self, n: usize) -> u8
        ensures { result ≡ told_owner self.entry.bytes.now n }
    {
        answer::owner_at(self.bytes, n)
    }

    // What all fields from the reader's place on say, or the first that is refused.
    pub fn rest(self) -> Result<Schedule, Refusal>
        ensures { result ≡ read_from self.entry.bytes.now self.entry.at }
    {
        answer::rest_at(self.bytes, self.at)
    }
}

// Reads a whole answer, or gives the place of the first field that is refused. Who calls it needs to know nothing of a reader.
pub fn read_answer(s: &[u8]) -> Result<Schedule, Refusal>
    ensures { result ≡ read_answer s.now }
{
    AnswerReader::new(s).rest()
}

// The same, into an empty schedule that is lent.
pub fn read_into(s: &[u8], x: &mut Schedule) -> Result<(), Refusal>
    requires { x.old ≡ no_schedule }
    ensures { read_into x.new result ≡ read_answer s.now }
{
    answer::rest_into(s, 0, x)
}
