// Raises in a session: the bench's call with `Allowed`, which only a returning map has, and a refusal with `Refused`.
ghost use Rattle.bench.specs.Bench.{done_answer, held};
ghost use Rattle.bench.specs.Log.{SameHalves};
ghost use Rattle.session.specs.Played.{Attempted};
ghost use Rattle.std.specs.Prelude.{Bool, true, false};

use bench::{Halves, Running};
use exchange::{ExchangeMap, Refusal, ReturningMap};

// Kept: a trait and no closure that raises: so the type says that only a returning map raises, and one value serves a map and its mirror.

// Whether the bench's raise is called, whatever the map.
pub trait Permission {
    ghost allowed: { Bool };
}

pub trait Raising<M: ExchangeMap>: Permission {
    fn raise(
        &self,
        bench: &Running,
        map: &M,
        row: &[M::Elem],
        halves: &mut Halves<'_, M::Elem>,
        kind: u32,
    ) -> Result<(), Refusal>
        ensures lent { SameHalves halves.old halves.new }
        ensures attempted { Attempted Self.allowed (M.ExchangeMap.meaning map.now) kind (held bench.now row.now halves.old) (held bench.now row.now halves.new) (done_answer result) };
}

#[derive(Clone, Copy)]
pub struct Allowed;

#[derive(Clone, Copy)]
pub struct Refused;

impl Permission for Allowed {
    ghost allowed = { true };
}

impl<M: ReturningMap> Raising<M> for Allowed {
    fn raise(
        &self,
        bench: &Running,
        map: &M,
        row: &[M::Elem],
        halves: &mut Halves<'_, M::Elem>,
        kind: u32,
    ) -> Result<(), Refusal> {
        bench.raise(map, row, halves, kind)
    }
}

impl Permission for Refused {
    ghost allowed = { false };
}

impl<M: ExchangeMap> Raising<M> for Refused {
    fn raise(
        &self,
        _bench: &Running,
        _map: &M,
        _row: &[M::Elem],
        _halves: &mut Halves<'_, M::Elem>,
        _kind: u32,
    ) -> Result<(), Refusal> {
        Err(Refusal::NotReturning)
    }
}
