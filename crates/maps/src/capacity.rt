// Capacity boxes: an element is a capacity and the balls held, of a box in the row or of a carrier.
ghost use Rattle.exchange.specs.Laws.{Returning};
ghost use Rattle.maps.specs.Capacity.{BallsKept, capacity_map};
ghost use Rattle.std.specs.Prelude.{◌≡◌};
ghost use Rattle.exchange.proofs.Completion.{completed_lawful};
ghost use Rattle.maps.specs.CarrierLaws.{sound};

use exchange::{ExchangeMap, ReturningMap};

#[derive(Clone, Copy, PartialEq, Eq, Debug)]
pub struct Holder {
    pub capacity: u8,
    pub balls: u8,
}

#[derive(Clone, Copy)]
pub struct Capacity;

impl ExchangeMap for Capacity {
    type Elem = Holder;

    ghost meaning = { λ _. capacity_map };

    ghost lawful = { λ m. completed_lawful sound };

    // One comparison: the capacity is at least 1 and at least the balls.
    fn belongs(&self, x: Holder) -> bool {
        x.balls.max(1) <= x.capacity
    }

    fn kind(&self, x: Holder) -> u8 {
        if self.belongs(x) { x.capacity } else { 0 }
    }

    fn code(&self, x: Holder) -> u32 {
        if self.belongs(x) {
            256 * u32::from(x.capacity) + u32::from(x.balls)
        } else {
            u32::MAX
        }
    }

    fn is_code(&self, n: u32) -> bool {
        let capacity = n / 256;
        (1..256).contains(&capacity) && n % 256 <= capacity
    }

    fn element(&self, n: u32) -> Holder {
        if self.is_code(n) {
            // Kept: `as` where a bound is proved, here and in cross: u8::try_from would add a branch that no number takes, and to_be_bytes would have to be proved this quotient and remainder.
            Holder {
                capacity: (n / 256) as u8,
                balls: (n % 256) as u8,
            }
        } else {
            self.rest()
        }
    }

    fn rest(&self) -> Holder {
        Holder {
            capacity: 1,
            balls: 0,
        }
    }

    fn cross(&self, left: Holder, right: Holder) -> (Holder, Holder) {
        if !self.belongs(left) || !self.belongs(right) {
            return (left, right);
        }
        let sum = u16::from(right.balls) + u16::from(left.balls);
        let p = sum.saturating_sub(u16::from(right.capacity));
        let q = sum.saturating_sub(u16::from(left.capacity));
        let new_left = Holder {
            capacity: right.capacity,
            balls: (u16::from(left.balls) + q - p) as u8,
        };
        let new_right = Holder {
            capacity: left.capacity,
            balls: (u16::from(right.balls) + p - q) as u8,
        };
        (new_left, new_right)
    }

    fn uncross(&self, left: Holder, right: Holder) -> (Holder, Holder) {
        self.cross(left, right)
    }
}

impl ReturningMap for Capacity {
    fn recross(&self, left: Holder, right: Holder) -> (Holder, Holder)
        ensures value { result ≡ capacity_map.cross left right }
        ensures returning { Returning capacity_map }
        ensures balls { BallsKept left right result }
    {
        self.uncross(left, right)
    }
}
