//! The files that a survey issues, written byte by byte, and the fields of lines that are read.

#![tactic(auto)]

// What takes a text byte by byte: one counts the bytes, one writes them.
mod pen;
mod sink;
mod tally;

// What has a text, and how that is measured and written.
mod room;
mod text;

// Numbers, and lines of fields.
mod line;
mod number;

// The files.
mod baseline;
mod contents;
mod profile;
mod table;

// What is read: the fields of a line.
mod fields;
mod pair;

// What is proved of the definitions alone.
mod theorems;

pub use contents::Contents;
pub use fields::{Fields, field_count, without_end};
pub use line::{Field, write_line};
pub use number::{number_len, read_number, reads_back, write_number};
pub use pair::{BadField, read_pair};
pub use profile::{profile_len, write_profile};
pub use table::{table_len, write_table};
pub use theorems::{files_fit, lines_read_back};

#[cfg(test)]
mod tests;
