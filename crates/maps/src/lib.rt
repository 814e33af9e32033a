// The maps that the laboratory knows: capacity boxes, permutations, affine residues and phases.
// Each is a rule on its elements, completed for all values, and proved lawful; a map's parameters are checked where the map is made.
// Kept: each map completes its rule in its own functions. One completion over a trait of rules would ask of those that the values belong, and what single maps promise besides of cross and uncross would have no place.
#![tactic(auto)]

pub mod affine;
pub mod capacity;
pub mod permutations;
pub mod phases;
pub mod soliton;
#[cfg(test)]
mod tests;

pub use affine::Affine;
pub use capacity::{Capacity, Holder};
pub use permutations::Permutations;
pub use phases::Phases;
pub use soliton::Soliton;
