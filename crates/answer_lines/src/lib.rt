//! The lines of an answer text, both ways, with no kind of answer in it.
//!
//! - `line_reading` and `line_printing`: the lines of a text, read and written one by one
//! - `line`: values that fill a line, each said once as its fields
//! - `field_list` and `field_value`: fields that come one after the other, and one field, both ways
//! - `lines` and `words`: a text cut into lines, and a line into words
//! - `fields`: the fields of a line, as they are read
//! - `judging`: the order of causes on one line
//! - `fault`: why a text is refused
#![tactic(auto)]

mod fault;
mod field_list;
mod field_value;
mod fields;
mod judging;
mod line;
mod line_printing;
mod line_reading;
mod lines;
mod words;

pub use fault::ReadFault;
pub use field_list::FieldList;
pub use field_value::{FieldValue, Position};
pub use fields::natural;
pub use judging::{Flaw, Judged, decide};
pub use line::{Five, Four, Line, One, Six, Three, Two};
pub use line_printing::{
    push, push_count, push_counted, push_line, push_natural, push_size, push_titled,
};
pub use line_reading::{
    add, list_for, read_count, read_counted, read_line, read_listed, read_titled,
};
pub use lines::Unread;
pub use words::Words;
