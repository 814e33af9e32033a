// The lines that a session prints.
ghost use Rattle.rowfile.specs.Lines.{led};
ghost use Rattle.session.specs.Played.{code_fields, coded_fields, printed, refusal_fields};
ghost use Rattle.std.specs.Prelude.{◌≡◌, ℕ, List, [], ◌∷◌, ◌++◌, Some, codes as text, decimal, map, string_bytes, OnOk};

use exchange::{ExchangeMap, Refusal};
use std::alloc::{AllocError, AllocFailed};
use std::error::Error;
use std::fmt;
use std::fmt::Write;

// Want of memory.
#[derive(Clone, Copy, Debug)]
pub struct NoMemory;

impl fmt::Display for NoMemory {
    ghost output = { λ _. Some (text "no memory for this session") };

    fn fmt<W: fmt::Write>(&self, f: &mut fmt::Formatter<W>) -> fmt::Result {
        write!(f, "no memory for this session")
    }
}

impl Error for NoMemory {}

// Kept: three conversions by hand, public for callers' `?`, since no derive writes a `From`.
impl From<AllocError> for NoMemory {
    fn from(_e: AllocError) -> NoMemory {
        NoMemory
    }
}

impl From<fmt::Error> for NoMemory {
    fn from(_e: fmt::Error) -> NoMemory {
        NoMemory
    }
}

impl<T: Drop> From<AllocFailed<T>> for NoMemory {
    fn from(_e: AllocFailed<T>) -> NoMemory {
        NoMemory
    }
}

// What a granted call answers: one code, or two.
pub(crate) trait Coded: Copy {
    ghost codes: { Self → List ℕ };

    // Writes each code behind a tab.
    fn write_codes(self, out: &mut String) -> Result<(), AllocError>
        ensures { OnOk result (string_bytes out.new ≡ string_bytes out.old ++ led 9 (map decimal (codes self))) };
}

impl Coded for u32 {
    ghost codes = { λ n. n ∷ [] };

    fn write_codes(self, out: &mut String) -> Result<(), AllocError> {
        write!(out, "\t{self}")
    }
}

impl Coded for (u32, u32) {
    ghost codes = { λ p. p.0 ∷ p.1 ∷ [] };

    fn write_codes(self, out: &mut String) -> Result<(), AllocError> {
        let (older, newer) = self;
        write!(out, "\t{older}\t{newer}")
    }
}

// The codes of elements, each behind a tab.
#[derive(Clone, Copy)]
struct CodesOf<'a, M: ExchangeMap> {
    map: &'a M,
    elements: &'a [M::Elem],
}

impl<M: ExchangeMap> fmt::Display for CodesOf<'_, M> {
    ghost output = { λ c. Some (led 9 (code_fields (M.ExchangeMap.meaning c.map.now) c.elements.now)) };

    fn fmt<W: fmt::Write>(&self, f: &mut fmt::Formatter<W>) -> fmt::Result {
        for x in self.elements {
            let code = self.map.code(*x);
            write!(f, "\t{code}")?;
        }
        Ok(())
    }
}

pub(crate) fn say_refusal(out: &mut String, refusal: Refusal) -> Result<(), NoMemory>
    ensures { OnOk result (string_bytes out.new ≡ string_bytes out.old ++ printed (refusal_fields refusal)) }
{
    let number = refusal.number();
    writeln!(out, "?\t{number}")?;
    Ok(())
}

// A letter and the codes that its command is answered, or the refusal.
pub(crate) fn say_answer<A: Coded>(
    out: &mut String,
    letter: &str,
    answer: Result<A, Refusal>,
) -> Result<(), NoMemory>
    ensures { OnOk result (string_bytes out.new ≡ string_bytes out.old ++ printed (coded_fields A.codes letter.now answer)) }
{
    match answer {
        Ok(codes) => {
            out.push_str(letter)?;
            codes.write_codes(out)?;
            out.push_str("\n")?;
            Ok(())
        }
        Err(refusal) => say_refusal(out, refusal),
    }
}

// A word and the codes of elements.
pub(crate) fn say_elements<M: ExchangeMap>(
    out: &mut String,
    word: &str,
    map: &M,
    elements: &[M::Elem],
) -> Result<(), NoMemory>
    ensures { OnOk result (string_bytes out.new ≡ string_bytes out.old ++ printed (word.now ∷ code_fields (M.ExchangeMap.meaning map.now) elements.now)) }
{
    let codes = CodesOf { map, elements };
    writeln!(out, "{word}{codes}")?;
    Ok(())
}
