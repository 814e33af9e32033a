// Sweeps over every lawful exchange map, as mathematics: what a carrier makes of a row, what exchanges make of a list of carriers, the rules by which a bench refuses a call, and the runs of a bench.
// The definitions stand in specs/; a bench's calls name them in their contracts. `theorems` promises what holds of them, above all that every run answers as the plain book of its carriers does,
// that reordered carriers leave the same row, and that over a returning map carriers are told by their kinds.
#![tactic(auto)]

pub mod theorems;
