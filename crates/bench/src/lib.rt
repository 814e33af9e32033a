// The bench: carriers are swept along a row of boxes, logged, taken back, exchanged and raised, over any exchange map.
// Each call says for all inputs what it answers and what the row and both halves of the log hold afterwards, and changes nothing where it refuses.
// `start` promises that after any list of calls the bench is what the plain book of its filled row says.
#![tactic(auto)]

pub mod bench;
mod calls;
mod judge;
pub mod log;
pub mod walk;

pub use bench::{Closed, Filling, Running};
pub use log::{Halves, Log};
