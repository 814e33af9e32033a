// The inverse of a map: cross and uncross trade places.
ghost use Rattle.exchange.specs.Laws.{Returning};
ghost use Rattle.exchange.specs.Layers.{inverse};
ghost use Rattle.std.specs.Prelude.{◌≡◌};
ghost use Rattle.exchange.specs.LayersLemmas.{inverse_lawful};

use crate::map::{ExchangeMap, ReturningMap};

// The map below run backwards.
// Kept: six functions stand in Mirror word for word. One type over a trait of views wants the law that a view keeps the elements, and by it a proof of each of the six, which need none here.
#[derive(Clone, Copy)]
pub struct Inverse<M>(pub M);

impl<M: ExchangeMap> ExchangeMap for Inverse<M> {
    type Elem = M::Elem;

    ghost meaning = { λ s. inverse (M.ExchangeMap.meaning s.0) };

    ghost lawful = { λ m. inverse_lawful (M.ExchangeMap.lawful m.0) };

    fn belongs(&self, x: M::Elem) -> bool {
        self.0.belongs(x)
    }

    fn kind(&self, x: M::Elem) -> u8 {
        self.0.kind(x)
    }

    fn code(&self, x: M::Elem) -> u32 {
        self.0.code(x)
    }

    fn is_code(&self, n: u32) -> bool {
        self.0.is_code(n)
    }

    fn element(&self, n: u32) -> M::Elem {
        self.0.element(n)
    }

    fn rest(&self) -> M::Elem {
        self.0.rest()
    }

    fn cross(&self, left: M::Elem, right: M::Elem) -> (M::Elem, M::Elem) {
        self.0.uncross(left, right)
    }

    fn uncross(&self, left: M::Elem, right: M::Elem) -> (M::Elem, M::Elem) {
        self.0.cross(left, right)
    }
}

impl<M: ReturningMap> ReturningMap for Inverse<M> {
    fn recross(&self, left: M::Elem, right: M::Elem) -> (M::Elem, M::Elem) {
        self.0.recross(left, right)
    }
}
