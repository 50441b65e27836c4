//! The C entry: places a square of bytes. docs/c-host.md tells how a C program links it.

#![tactic(auto)]

mod entry;
mod output;
mod square_form;

pub use entry::{place_square, tuvelanni_place_square};
