// The row file: a text that names an exchange map, a row of boxes and the commands to run on it.
// `read` accepts a text exactly as the one file that it is the text of, and else answers its one fault with its line.
// `write` checks a file by the same rules before it writes a byte; `rewrite` gives every accepted text back as the same bytes.
#![tactic(auto)]

pub mod copier;
mod fields;
pub mod file;
mod lines;
mod number;
pub mod reader;
pub mod writer;

pub use copier::rewrite;
pub use file::{Command, Fault, Heading, MapName, ReadError, RowFile, Side};
pub use reader::read;
pub use writer::write;
