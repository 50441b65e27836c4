//! The text protocol of a survey: a line in, a reply out.

#![tactic(auto)]

// Why a line is refused, and by which layer.
mod fault;

// What a line asks for.
mod request;
mod word;

// What is replied, in bytes.
mod reply;

// A line, the calls that it makes, and the lines of a sheet.
mod issue;
mod serve;
mod sheet;

pub use fault::{Fault, TextFault};
pub use reply::REPLY;
pub use request::{Request, read_request};
pub use serve::line;
pub use sheet::{SheetLines, line_end};
