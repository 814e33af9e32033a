// The session: a row file's text in, the lines that it prints out.
// `play` promises the lines by the plain book of the file's row: for each command the book's answer or refusal, or the first fault of a faulty text.
#![tactic(auto)]

mod commands;
pub mod files;
pub mod lines;
pub mod raising;
#[cfg(test)]
mod tests;
pub mod worked;

pub use files::play;
pub use lines::NoMemory;
pub use worked::worked_examples_hold;
