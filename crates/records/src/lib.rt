// Requests and answers as bytes. A field is either read or refused at once, left to right.
#![tactic(auto)]

use slots::CoreSlot;
use timetable::Timetable;

mod fields; // fields.rt: the fields of a record
pub mod write; // write.rt: writing an answer
pub mod read; // read.rt: reading a request

pub use fields::{content_at, is_field, number_at, put_head, put_number};

// What is asked for an id. A period of 0 says that the request does not list the id, and a bound of 0 that its field was short.
// (No Option: the promises InFull and AsksAsThere speak of each id's period and bound, as those of a timetable's entries.)
#[derive(Clone, Copy)]
pub struct Ask {
    pub period: u16,
    pub bound: u8,
}

// What one field holds: a number, and the place of the next field.
#[derive(Clone, Copy)]
struct Numbered {
    value: u64,
    next: usize,
}

// What one field lists: an id, what is asked for it, and the place of the next field.
#[derive(Clone, Copy)]
pub struct Listed {
    pub id: u8,
    pub ask: Ask,
    pub next: usize,
}

// The request slot, T and what is asked for each id.
#[derive(Clone, Copy)]
pub struct Request {
    pub slot: CoreSlot,
    pub limit: u8,
    pub asks: [Ask; Timetable::IDS],
}
