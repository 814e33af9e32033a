// The theorems, each the contract of a function that does nothing else.
ghost use Rattle.runs.specs.Runs.{Promises};
ghost use Rattle.runs.specs.Theorems.{AtAPlace, Granting, InTurn, KindsTell, OneDeed, OneOutcome, Raising, Reordering, Undo};

use exchange::map::ExchangeMap;

// A carrier meets the boxes in turn, and the carriers follow one another.
pub fn sweeps_go_in_turn<M: ExchangeMap>(map: &M)
    ensures { InTurn (M.ExchangeMap.meaning map.now) }
{}

// A take-back undoes a sweep, and a sweep a take-back.
pub fn sweeps_are_undone<M: ExchangeMap>(map: &M)
    ensures { Undo (M.ExchangeMap.meaning map.now) }
{}

// What an exchange at a place does, place by place.
pub fn exchanges_act_at_their_place<M: ExchangeMap>(map: &M)
    ensures { AtAPlace (M.ExchangeMap.meaning map.now) }
{}

// A raise takes the newest carrier of its kind to the last place.
pub fn raises_take_the_newest<M: ExchangeMap>(map: &M)
    ensures { Raising (M.ExchangeMap.meaning map.now) }
{}

// Reordered carriers leave the same row, and what goes out is reordered alike.
pub fn reordering_changes_nothing<M: ExchangeMap>(map: &M)
    ensures { Reordering (M.ExchangeMap.meaning map.now) }
{}

// Over a returning map, carriers are told by their kinds and by how they can be reordered.
pub fn kinds_tell_carriers<M: ExchangeMap>(map: &M)
    ensures { KindsTell (M.ExchangeMap.meaning map.now) }
{}

// When a call is granted.
pub fn calls_are_granted_when_all_is_found<M: ExchangeMap>(map: &M)
    ensures { Granting (M.ExchangeMap.meaning map.now) }
{}

// The plain book answers every call, in one way.
pub fn the_book_has_one_outcome<M: ExchangeMap>(map: &M)
    ensures { OneOutcome (M.ExchangeMap.meaning map.now) }
{}

// A call does one thing to whatever memory it is handed, and answers in one way.
pub fn a_call_does_one_thing<M: ExchangeMap>(map: &M)
    ensures { OneDeed (M.ExchangeMap.meaning map.now) }
{}

// What every run of a bench keeps, from whatever row it was filled with.
pub fn the_promise_of_runs<M: ExchangeMap>(map: &M)
    ensures { Promises (M.ExchangeMap.meaning map.now) }
{}
