// The mirror of a map: left and right trade places.
ghost use Rattle.exchange.specs.Laws.{Returning};
ghost use Rattle.exchange.specs.Layers.{mirror};
ghost use Rattle.std.specs.Prelude.{◌≡◌};
ghost use Rattle.exchange.specs.LayersLemmas.{mirror_lawful};

use crate::map::{ExchangeMap, ReturningMap};

// The map below seen from behind the row.
// Kept: six functions stand in Inverse word for word. One type over a trait of views wants the law that a view keeps the elements, and by it a proof of each of the six, which need none here; the three bodies that turn a pair are two lines each.
#[derive(Clone, Copy)]
pub struct Mirror<M>(pub M);

impl<M: ExchangeMap> ExchangeMap for Mirror<M> {
    type Elem = M::Elem;

    ghost meaning = { λ s. mirror (M.ExchangeMap.meaning s.0) };

    ghost lawful = { λ m. mirror_lawful (M.ExchangeMap.lawful m.0) };

    fn belongs(&self, x: M::Elem) -> bool {
        self.0.belongs(x)
    }

    fn kind(&self, x: M::Elem) -> u8 {
        self.0.kind(x)
    }

    fn code(&self, x: M::Elem) -> u32 {
        self.0.code(x)
    }

    fn is_code(&self, n: u32) -> bool {
        self.0.is_code(n)
    }

    fn element(&self, n: u32) -> M::Elem {
        self.0.element(n)
    }

    fn rest(&self) -> M::Elem {
        self.0.rest()
    }

    fn cross(&self, left: M::Elem, right: M::Elem) -> (M::Elem, M::Elem) {
        let (new_right, new_left) = self.0.cross(right, left);
        (new_left, new_right)
    }

    fn uncross(&self, left: M::Elem, right: M::Elem) -> (M::Elem, M::Elem) {
        let (new_right, new_left) = self.0.uncross(right, left);
        (new_left, new_right)
    }
}

impl<M: ReturningMap> ReturningMap for Mirror<M> {
    fn recross(&self, left: M::Elem, right: M::Elem) -> (M::Elem, M::Elem) {
        let (new_right, new_left) = self.0.recross(right, left);
        (new_left, new_right)
    }
}
