// Permutations of 0 to 7: a pair crosses by conjugation.
ghost use Rattle.exchange.specs.Laws.{Pair};
ghost use Rattle.maps.specs.Permutations.{Conjugates, conjugate, images, inverse, perm_belongs, perm_code, perm_elements, perm_map, product, unconjugate};
ghost use Rattle.std.specs.Prelude.{◌≡◌, T, true, false, MatchOption};
ghost use Rattle.exchange.proofs.Completion.{completed_lawful};
ghost use Rattle.maps.specs.PermutationLaws.{perm_sound};

use exchange::ExchangeMap;
use std::array;

// An element is the array of its eight images.
#[derive(Clone, Copy)]
pub struct Permutations;

// Kept: beside belongs, since `Permutation::of` asks it without a map.
fn is_permutation(x: [u8; 8]) -> bool
    ensures { result ≡ perm_belongs x }
{
    (0..8).all(|v| x.contains(&v))
}

// A permutation as its word: the images of 0 to 7, in order.
#[derive(Clone, Copy)]
struct Permutation {
    word: [u8; 8],
    ghost belongs: { T (perm_belongs word) },
}

impl Permutation {
    fn of(x: [u8; 8]) -> Option<Permutation>
        ensures { MatchOption result (perm_belongs x ≡ false) (λ p. (perm_belongs x ≡ true) × (p.word ≡ x)) }
    {
        if is_permutation(x) {
            Some(Permutation { word: x })
        } else {
            None
        }
    }

    // This one first, then the next.
    fn then(self, next: Permutation) -> Permutation
        ensures { result.word ≡ product self.word next.word }
    {
        Permutation {
            word: self.word.map(|v| next.word[usize::from(v)]),
        }
    }

    fn inverse(self) -> Permutation
        ensures { result.word ≡ inverse self.word }
    {
        let mut word = [0; 8];
        // Kept: `as` after enumerate: over a zip with `0u8..8`, which needs none, the invariant has no index to speak of, and the proof did not close.
        for (i, v) in self.word.iter().enumerate() {
            word[usize::from(*v)] = i as u8;
        }
        Permutation { word }
    }

    fn conjugate(self, by: Permutation) -> Permutation
        ensures value { result.word ≡ conjugate self.word by.word }
        ensures conjugates { Conjugates self.word by.word result.word }
    {
        by.inverse().then(self).then(by)
    }

    // The one whose conjugate by `by` is this one.
    fn unconjugate(self, by: Permutation) -> Permutation
        ensures value { result.word ≡ unconjugate by.word self.word }
        ensures conjugates { Conjugates result.word by.word self.word }
    {
        by.then(self).then(by.inverse())
    }

    fn code(self) -> u32
        ensures { result ≡ perm_code self.word }
    {
        self.word.iter().rev().fold(0, |n, v| n * 8 + u32::from(*v))
    }
}

// The eight lowest digits to the base 8.
fn images(n: u32) -> [u8; 8]
    ensures { result ≡ images n }
{
    // Kept: `as` where a bound is proved: u8::try_from would add a branch that no number takes.
    array::from_fn(|i| ((n >> (3 * i)) % 8) as u8)
}

impl ExchangeMap for Permutations {
    type Elem = [u8; 8];

    ghost meaning = { λ _. perm_map };

    ghost lawful = { λ _. completed_lawful perm_sound };

    fn belongs(&self, x: [u8; 8]) -> bool {
        is_permutation(x)
    }

    fn kind(&self, _x: [u8; 8]) -> u8 {
        0
    }

    fn code(&self, x: [u8; 8]) -> u32 {
        Permutation::of(x).map_or(u32::MAX, |x| x.code())
    }

    fn is_code(&self, n: u32) -> bool {
        n < 16777216 && self.belongs(images(n))
    }

    fn element(&self, n: u32) -> [u8; 8] {
        if self.is_code(n) {
            images(n)
        } else {
            self.rest()
        }
    }

    fn rest(&self) -> [u8; 8] {
        [0, 1, 2, 3, 4, 5, 6, 7]
    }

    fn cross(&self, left: [u8; 8], right: [u8; 8]) -> ([u8; 8], [u8; 8])
        ensures value { result ≡ perm_map.cross left right }
        ensures conjugates { Pair perm_elements left right → Conjugates left right result.1 }
    {
        if let Some(x) = Permutation::of(left)
            && let Some(y) = Permutation::of(right)
        {
            let crossed = x.conjugate(y).word;
            (right, crossed)
        } else {
            (left, right)
        }
    }

    fn uncross(&self, left: [u8; 8], right: [u8; 8]) -> ([u8; 8], [u8; 8])
        ensures value { result ≡ perm_map.uncross left right }
        ensures conjugates { Pair perm_elements left right → Conjugates result.0 left right }
    {
        if let Some(y) = Permutation::of(left)
            && let Some(z) = Permutation::of(right)
        {
            let crossed = z.unconjugate(y).word;
            (crossed, left)
        } else {
            (left, right)
        }
    }
}
