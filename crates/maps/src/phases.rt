// Phases: solitons of unequal kinds pass each other, and their phases shift.
ghost use Rattle.std.specs.Prelude.{◌≡◌, ◌+◌, ◌%◌, ◌<◌, ◌≤◌, T, ◌≢◌};
ghost use Rattle.exchange.specs.Laws.{Pair, Returning};
ghost use Rattle.maps.specs.Making.{Makes, is_modulus};
ghost use Rattle.maps.specs.Phases.{Passage, gained, lost, passes, phase_elements, phase_map};
ghost use Rattle.exchange.proofs.Completion.{completed_lawful};
ghost use Rattle.maps.specs.PhaseLaws.{phase_sound};

use crate::soliton::Soliton;
use exchange::{ExchangeMap, Refusal, ReturningMap};

// The map whose phases are taken modulo `modulus`.
#[derive(Clone, Copy)]
pub struct Phases {
    modulus: u16,
    ghost bounded: { T (is_modulus modulus) },
}

impl Phases {
    pub fn new(m: u32) -> Result<Phases, Refusal>
        ensures { Makes (is_modulus m) (λ s. s.modulus ≡ m) result }
    {
        // Kept: the bounds of a modulus here and in the lines of Affine: the one is a conversion, the other a range of numbers to reckon with.
        match u16::try_from(m) {
            Ok(modulus @ 1..) => Ok(Phases { modulus }),
            _ => Err(Refusal::BadParameters),
        }
    }

    fn gained(&self, phase: u16, t: u16) -> u16
        ensures { result ≡ gained self.now.modulus t phase }
    {
        ((u32::from(phase) + u32::from(t)) % u32::from(self.modulus)) as u16
    }

    fn lost(&self, phase: u16, t: u16) -> u16
        ensures { result ≡ lost self.now.modulus t phase }
    {
        self.gained(phase, self.modulus - t % self.modulus)
    }
}

impl ExchangeMap for Phases {
    type Elem = Soliton;

    ghost meaning = { λ s. phase_map s.modulus };

    ghost lawful = { λ s. completed_lawful (phase_sound s.modulus s.bounded) };

    fn belongs(&self, x: Soliton) -> bool {
        x.kind > 0 && x.phase < self.modulus
    }

    fn kind(&self, x: Soliton) -> u8 {
        if self.belongs(x) { x.kind } else { 0 }
    }

    fn code(&self, x: Soliton) -> u32 {
        if self.belongs(x) {
            65536 * u32::from(x.kind) + u32::from(x.phase)
        } else {
            u32::MAX
        }
    }

    fn is_code(&self, n: u32) -> bool {
        (65536..16777216).contains(&n) && n % 65536 < u32::from(self.modulus)
    }

    fn element(&self, n: u32) -> Soliton {
        if self.is_code(n) {
            // Kept: `as` where a bound is proved, here and in gained: try_from would add a branch that no number takes, and to_be_bytes would have to be proved this quotient and remainder.
            Soliton {
                kind: (n / 65536) as u8,
                phase: (n % 65536) as u16,
            }
        } else {
            self.rest()
        }
    }

    fn rest(&self) -> Soliton {
        Soliton { kind: 1, phase: 0 }
    }

    fn cross(&self, left: Soliton, right: Soliton) -> (Soliton, Soliton) {
        // both kinds are above 0 if the lesser is, and both phases below the modulus if the greater is
        let lesser = left.kind.min(right.kind);
        let greater = left.phase.max(right.phase);
        if left.kind == right.kind || lesser == 0 || greater >= self.modulus {
            return (left, right);
        }
        // The sign stands here: the one that passes to the right loses the shift.
        let t = 2 * u16::from(lesser);
        let new_left = Soliton {
            kind: right.kind,
            phase: self.gained(right.phase, t),
        };
        let new_right = Soliton {
            kind: left.kind,
            phase: self.lost(left.phase, t),
        };
        (new_left, new_right)
    }

    fn uncross(&self, left: Soliton, right: Soliton) -> (Soliton, Soliton) {
        self.cross(left, right)
    }
}

impl ReturningMap for Phases {
    fn recross(&self, left: Soliton, right: Soliton) -> (Soliton, Soliton)
        ensures value { result ≡ (phase_map self.now.modulus).cross left right }
        ensures returning { Returning (phase_map self.now.modulus) }
        ensures passage { let m = self.now.modulus in Pair (phase_elements m) left right → (left.kind ≢ right.kind) → Passage m left right result.0 result.1 }
    {
        self.uncross(left, right)
    }
}
