// The two interfaces. Everything above them is written against these and names no map.
ghost use Rattle.exchange.specs.Laws.{Lawful, Returning};
ghost use Rattle.exchange.specs.Meaning.{Meaning};
ghost use Rattle.std.specs.Prelude.{◌≡◌};

// A map exchanges two neighbours, a left and a right element. No call changes it, and every function answers for all values.
pub trait ExchangeMap {
    type Elem: Copy;

    // what the functions below answer
    ghost meaning: { Self → Meaning Self.Elem };

    // Whether a value is an element of this map.
    fn belongs(&self, x: Self::Elem) -> bool
        ensures { result ≡ (meaning self.now).elements.belongs x };

    // Kept: kind 0 and code 4,294,967,295 of what is no element, is_code beside element, and a pair with what is no element given back, in place of an Option: the project's rules name these functions and answers.

    // The kind of an element, and 0 of any other value.
    fn kind(&self, x: Self::Elem) -> u8
        ensures { result ≡ (meaning self.now).elements.kind x };

    // The number that stands for an element, and 4,294,967,295 for any other value.
    fn code(&self, x: Self::Elem) -> u32
        ensures { result ≡ (meaning self.now).elements.code x };

    fn is_code(&self, n: u32) -> bool
        ensures { result ≡ (meaning self.now).elements.codes n };

    // The element of a code, and the rest element for any other number.
    fn element(&self, n: u32) -> Self::Elem
        ensures { result ≡ (meaning self.now).elements.element n };

    fn rest(&self) -> Self::Elem
        ensures { result ≡ (meaning self.now).elements.rest };

    // The new left and the new right; a pair with a value that does not belong comes back as it is.
    fn cross(&self, left: Self::Elem, right: Self::Elem) -> (Self::Elem, Self::Elem)
        ensures { result ≡ (meaning self.now).cross left right };

    // The pair that crosses to this one.
    fn uncross(&self, left: Self::Elem, right: Self::Elem) -> (Self::Elem, Self::Elem)
        ensures { result ≡ (meaning self.now).uncross left right };

    ghost lawful: { (m : Self) → Lawful (meaning m) };
}

// A map on which crossing a pair twice gives it back, and on which a pair of equal kinds stays as it is.
pub trait ReturningMap: ExchangeMap {
    // Crosses a pair, with the promise that makes the map a returning one: its two laws, of every pair.
    fn recross(&self, left: Self::Elem, right: Self::Elem) -> (Self::Elem, Self::Elem)
        ensures value { result ≡ (Self.ExchangeMap.meaning self.now).cross left right }
        ensures returning { Returning (Self.ExchangeMap.meaning self.now) };
}
