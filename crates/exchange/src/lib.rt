// The exchange map: two neighbours, a left and a right element, cross and change sides.
// `ExchangeMap` asks of every map its functions, each equal to the map's meaning, and the laws of that meaning; `ReturningMap` asks two laws more.
// `Mirror` and `Inverse` are maps over any map, in any pile, and keep what the map below keeps.
#![tactic(auto)]

pub mod inverse;
pub mod map;
pub mod mirror;
pub mod refusal;

pub use inverse::Inverse;
pub use map::{ExchangeMap, ReturningMap};
pub use mirror::Mirror;
pub use refusal::Refusal;
