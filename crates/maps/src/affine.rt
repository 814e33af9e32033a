// Affine residues: the numbers below a modulus, crossed by two affine maps that commute.
ghost use Rattle.std.specs.Prelude.{◌≡◌, ◌+◌, ◌-◌, ◌*◌, ◌%◌, ◌<◌, T, OnOk};
ghost use Rattle.std.proofs.Common.{subst};
ghost use Rattle.exchange.specs.Laws.{Pair};
ghost use Rattle.maps.specs.Affine.{Commute, Crossed, affine_elements, affine_map, affine_parameters, back, coprime, inverts, line, line_parameters};
ghost use Rattle.maps.specs.Making.{Makes, is_modulus};
ghost use Rattle.exchange.proofs.Completion.{completed_lawful};
ghost use Rattle.maps.specs.AffineLaws.{affine_sound};

use exchange::{ExchangeMap, Refusal};

// The affine map x to slope x + shift modulo `modulus`, with the inverse of its slope.
#[derive(Clone, Copy)]
struct Line {
    modulus: u32,
    slope: u32,
    shift: u32,
    inverse: u32,
    ghost bounded: { T (is_modulus modulus) },
    ghost slope_low: { slope < modulus },
    ghost shift_low: { shift < modulus },
    ghost turns: { T (inverts modulus slope inverse) },
}

// The map whose cross of x and y is f(y) and g(x).
#[derive(Clone, Copy)]
pub struct Affine {
    f: Line,
    g: Line,
    ghost same_modulus: { g.modulus ≡ f.modulus },
    ghost lawful: { T (affine_parameters f.modulus f.slope f.shift g.slope g.shift) },
}

// Euclid's algorithm: beside each remainder r its factor t, with a t and r the same modulo m.
fn inverse_modulo(a: u32, m: u32) -> Result<u32, Refusal>
    requires { (T (is_modulus m)) × (a < m) }
    ensures { Makes (coprime a m) (λ i. T (inverts m a i)) result }
{
    let (mut r0, mut r1) = (m, a);
    let (mut t0, mut t1) = (0, 1 % m);
    while r1 != 0 {
        let q = r0 / r1;
        (r0, r1) = (r1, r0 % r1);
        (t0, t1) = (t1, (t0 + (m - q * t1 % m)) % m);
    }
    if r0 == 1 {
        Ok(t0)
    } else {
        Err(Refusal::BadParameters)
    }
}

impl Line {
    fn new(modulus: u32, slope: u32, shift: u32) -> Result<Line, Refusal>
        ensures { Makes (line_parameters modulus slope shift) (λ l. (l.modulus ≡ modulus) × (l.slope ≡ slope) × (l.shift ≡ shift)) result }
    {
        if !(1..=65535).contains(&modulus) || slope >= modulus || shift >= modulus {
            return Err(Refusal::BadParameters);
        }
        let inverse = inverse_modulo(slope, modulus)?;
        Ok(Line {
            modulus,
            slope,
            shift,
            inverse,
        })
    }

    fn at(self, x: u32) -> u32
        requires { x < self.modulus }
        ensures { result ≡ line self.modulus self.slope self.shift x }
    {
        (self.slope * x + self.shift) % self.modulus
    }

    fn back(self, y: u32) -> u32
        requires { y < self.modulus }
        ensures value { result ≡ back (line self.modulus self.slope self.shift) self.modulus y }
        ensures low { result < self.modulus }
        ensures found { line self.modulus self.slope self.shift result ≡ y }
    {
        self.inverse * ((y + (self.modulus - self.shift)) % self.modulus) % self.modulus
    }
}

impl Affine {
    // Kept: five numbers, as a heading writes them: a struct of them would be taken apart where they are read, checked and written.
    pub fn new(m: u32, a: u32, b: u32, c: u32, d: u32) -> Result<Affine, Refusal>
        ensures makes { Makes (affine_parameters m a b c d) (λ s. (s.f.modulus ≡ m) × (s.f.slope ≡ a) × (s.f.shift ≡ b) × (s.g.slope ≡ c) × (s.g.shift ≡ d)) result }
        ensures commutes { OnOk result (Commute m a b c d) }
    {
        // the bounds of both lines come before the inverse of either, which takes longer
        if c >= m || d >= m {
            return Err(Refusal::BadParameters);
        }
        let f = Line::new(m, a, b)?;
        let g = Line::new(m, c, d)?;
        // two lines commute where they do at 0
        if f.at(d) != g.at(b) {
            return Err(Refusal::BadParameters);
        }
        Ok(Affine { f, g })
    }
}

impl ExchangeMap for Affine {
    type Elem = u32;

    ghost meaning = { λ s. affine_map s.f.modulus s.f.slope s.f.shift s.g.slope s.g.shift };

    ghost lawful = { λ s. completed_lawful (affine_sound s.f.modulus s.f.slope s.f.shift s.g.slope s.g.shift s.f.inverse s.g.inverse s.lawful s.f.turns (subst (λ m. T (inverts m s.g.slope s.g.inverse)) s.same_modulus s.g.turns)) };

    fn belongs(&self, x: u32) -> bool {
        x < self.f.modulus
    }

    fn kind(&self, _x: u32) -> u8 {
        0
    }

    fn code(&self, x: u32) -> u32 {
        if self.belongs(x) { x } else { u32::MAX }
    }

    fn is_code(&self, n: u32) -> bool {
        self.belongs(n)
    }

    fn element(&self, n: u32) -> u32 {
        if self.belongs(n) { n } else { 0 }
    }

    fn rest(&self) -> u32 {
        0
    }

    fn cross(&self, left: u32, right: u32) -> (u32, u32) {
        if !self.belongs(left) || !self.belongs(right) {
            return (left, right);
        }
        (self.f.at(right), self.g.at(left))
    }

    fn uncross(&self, left: u32, right: u32) -> (u32, u32)
        ensures value { let s = self.now in result ≡ (affine_map s.f.modulus s.f.slope s.f.shift s.g.slope s.g.shift).uncross left right }
        ensures found { let s = self.now in Pair (affine_elements s.f.modulus) left right → Crossed s.f.modulus s.f.slope s.f.shift s.g.slope s.g.shift result.0 result.1 left right }
    {
        if !self.belongs(left) || !self.belongs(right) {
            return (left, right);
        }
        (self.g.back(right), self.f.back(left))
    }
}
