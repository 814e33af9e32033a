// What a row file holds, and what a faulty text is answered with.
ghost use Rattle.rowfile.specs.Headings.{has_code, lawful_parameters};
ghost use Rattle.rowfile.specs.Reading.{fault_line};
ghost use Rattle.std.specs.Prelude.{◌≡◌, Some};

use exchange::{ExchangeMap, Refusal};
use maps::{Affine, Capacity, Permutations, Phases};
use std::fmt;

// `Right` means the mirror of the map.
#[derive(Clone, Copy)]
pub enum Side {
    Left,
    Right,
}

// A map's name with its parameters.
#[derive(Clone, Copy)]
pub enum MapName {
    Cap,
    Perm,
    Aff {
        m: u32,
        a: u32,
        b: u32,
        c: u32,
        d: u32,
    },
    Phase {
        m: u32,
    },
}

// Kept: two tests in place of a made map: both are public, and one made map for all codes would be an enum of four maps beside the name, in every heading.
impl MapName {
    // Whether the parameters make a map of that name.
    pub fn parameters_hold(self) -> bool
        ensures { result ≡ lawful_parameters self }
    {
        match self {
            MapName::Cap | MapName::Perm => true,
            MapName::Aff { m, a, b, c, d } => Affine::new(m, a, b, c, d).is_ok(),
            MapName::Phase { m } => Phases::new(m).is_ok(),
        }
    }

    // Whether `n` is a code of that map.
    pub fn is_code(self, n: u32) -> bool
        ensures { result ≡ has_code self n }
    {
        match self {
            MapName::Cap => Capacity.is_code(n),
            MapName::Perm => Permutations.is_code(n),
            MapName::Aff { m, a, b, c, d } => {
                Affine::new(m, a, b, c, d).is_ok_and(|map| map.is_code(n))
            }
            MapName::Phase { m } => Phases::new(m).is_ok_and(|map| map.is_code(n)),
        }
    }
}

#[derive(Clone, Copy)]
pub struct Heading {
    pub side: Side,
    pub map: MapName,
}

#[derive(Clone, Copy)]
pub enum Command {
    // run the carrier of this code over the row
    Sweep(u32),
    // exchange at this place of the log
    Exchange(u32),
    // exchange back at this place of the log
    ExchangeBack(u32),
    // raise the newest carrier of this kind
    Raise(u32),
    // take back the newest sweep
    TakeBack,
    // print the row
    Print,
}

#[derive(Drop)]
pub struct RowFile {
    pub heading: Heading,
    pub codes: Vec<u32>,
    pub commands: Vec<Command>,
}

// Which line is refused, and why. Lines are counted from 1; line 0 is the whole text.
// Kept: line 0 in place of an Option, since the format prints this 0.
#[derive(Clone, Copy, PartialEq, Eq, Debug)]
pub struct Fault {
    pub line: u32,
    pub refusal: Refusal,
}

impl fmt::Display for Fault {
    ghost output = { λ f. Some (fault_line f) };

    fn fmt<W: fmt::Write>(&self, f: &mut fmt::Formatter<W>) -> fmt::Result {
        let line = self.line;
        let number = self.refusal.number();
        write!(f, "!\t{line}\t{number}")
    }
}

// Why a text is not read: it is faulty, or there is no memory for the file.
#[derive(Clone, Copy, PartialEq, Eq, Debug)]
pub enum ReadError {
    Fault(Fault),
    Memory,
}

// What the reader expects next: the map line, the row line, or a command; past the map line, under which heading.
#[derive(Clone, Copy)]
pub enum Stage {
    Map,
    Row(Heading),
    Commands(Heading),
}
