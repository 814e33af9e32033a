// The text of a file, written into memory that the caller hands over.
ghost use Rattle.std.specs.Prelude.{◌≡◌, ◌+◌, ◌^◌, ◌<◌, min, [], ◌∷◌, ◌++◌, map as each, length, decimal, MatchBool, MatchResult};
ghost use Rattle.exchange.specs.declared.refusal.Refusal.TheVariants.{NoElement};
ghost use Rattle.rowfile.specs.Faults.{Breaks};
ghost use Rattle.rowfile.specs.Files.{KeepsLine, KeepsLines, rowed, text_of, written};
ghost use Rattle.rowfile.specs.Lines.{led, line_of};
ghost use Rattle.rowfile.specs.Writing.{Appends, Lays, Misfit, Strays, WritesFile, command_line, commands_text, file_in, filed};
ghost use Rattle.rowfile.specs.declared.file.Stage.TheVariants.{Commands, Map, Row};
ghost use Rattle.std.specs.List.{AllByRecursion};

use crate::file::{Command, Fault, Heading, MapName, Side};
use crate::lines::MAX_CODES;
use crate::reader::MAX_BYTES;
use exchange::Refusal;

// Kept: the rules of a line stand here and in the reader: it stops at the first field that breaks one, and here there are values.

// Whether the command keeps the rule for codes.
fn holds(heading: Heading, command: Command) -> bool
    ensures { MatchBool result (KeepsLine (Commands heading) command) (Breaks (Commands heading) command NoElement) }
{
    match command {
        Command::Sweep(code) => heading.map.is_code(code),
        _ => true,
    }
}

// Kept: the heading and what it rules as two parameters, here, above and below: methods of Contents would be handed the rest too.
fn check_row(heading: Heading, codes: &[u32]) -> Result<(), Refusal>
    ensures { MatchResult result (λ _. KeepsLine (Row heading) codes.now) (Breaks (Row heading) codes.now) }
{
    if codes.len() > MAX_CODES {
        return Err(Refusal::RowFull);
    }
    if !codes.iter().all(|code| heading.map.is_code(*code)) {
        return Err(Refusal::NoElement);
    }
    Ok(())
}

// The line of the command at a place; one that is too large for its type counts as the largest.
fn command_line(place: usize) -> u32
    ensures { result ≡ min (place + 3) 4294967295 }
{
    u32::try_from(place.saturating_add(3)).unwrap_or(u32::MAX)
}

fn check_commands(heading: Heading, commands: &[Command]) -> Result<(), Fault>
    ensures { MatchResult result (λ _. AllByRecursion (KeepsLine (Commands heading)) commands.now) (Strays heading commands.now) }
{
    let stray = commands
        .iter()
        .position(|command| !holds(heading, *command));
    match stray {
        Some(place) => Err(Fault {
            line: command_line(place),
            refusal: Refusal::NoElement,
        }),
        None => Ok(()),
    }
}

// Memory that a text is laid into, as far as there is room, and the place behind what is laid.
// Kept: no `fmt::Write`, which tells nothing of a writer after an error and cannot tell that there is none, so that a text laid by `write!` could not be answered for.
#[derive(Drop)]
struct Sink<'a> {
    out: &'a mut [u8],
    at: usize,
}

// Kept: the `requires` of each method that the count cannot overflow, since how much may come depends on what is laid.
impl Sink<'_> {
    // Kept: byte by byte, since the room may end among them: a copy of the part that fits needs both bounds besides the count.
    // Without room they are only counted, and the place is written back once, since behind each byte it would be read anew.
    fn bytes(&mut self, bytes: &[u8])
        requires { self.old.at + length bytes.now < 2 ^ 64 }
        ensures { Appends self.old bytes.now self.new }
    {
        if self.at >= self.out.len() {
            self.at += bytes.len();
            return;
        }
        let mut at = self.at;
        for byte in bytes {
            if at < self.out.len() {
                self.out[at] = *byte;
            }
            at += 1;
        }
        self.at = at;
    }

    // Lays the digits of a number.
    // Kept: digits by hand, since the library writes them into a `String` or by a `fmt::Write`, which cannot promise that it never fails.
    fn number(&mut self, n: u32)
        requires { self.old.at + length (decimal n) < 2 ^ 64 }
        ensures { Appends self.old (decimal n) self.new }
    {
        if n >= 10 {
            self.number(n / 10);
        }
        self.bytes(&[b'0' + (n % 10) as u8]);
    }

    // Lays numbers, each behind a tab.
    fn numbers(&mut self, numbers: &[u32])
        requires { self.old.at + length (led 9 (each decimal numbers.now)) < 2 ^ 64 }
        ensures { Appends self.old (led 9 (each decimal numbers.now)) self.new }
    {
        for n in numbers {
            self.bytes(b"\t");
            self.number(*n);
        }
    }

    // Lays the rest of a line: a word and numbers.
    fn line(&mut self, word: &[u8], numbers: &[u32])
        requires { self.old.at + length (line_of (word.now ∷ each decimal numbers.now)) + 1 < 2 ^ 64 }
        ensures { Appends self.old (line_of (word.now ∷ each decimal numbers.now) ++ 10 ∷ []) self.new }
    {
        self.bytes(word);
        self.numbers(numbers);
        self.bytes(b"\n");
    }

    fn heading(&mut self, heading: Heading)
        requires { self.old.at < 2 ^ 63 }
        ensures { Appends self.old (line_of (written Map heading) ++ 10 ∷ []) self.new }
    {
        match heading.side {
            Side::Left => self.bytes(b"map\tL\t"),
            Side::Right => self.bytes(b"map\tR\t"),
        }
        match heading.map {
            MapName::Cap => self.line(b"cap", &[]),
            MapName::Perm => self.line(b"perm", &[]),
            MapName::Aff { m, a, b, c, d } => self.line(b"aff", &[m, a, b, c, d]),
            MapName::Phase { m } => self.line(b"phase", &[m]),
        }
    }

    fn command(&mut self, command: Command)
        requires { self.old.at < 2 ^ 63 }
        ensures { Appends self.old (command_line command ++ 10 ∷ []) self.new }
    {
        match command {
            Command::Sweep(code) => self.line(b"S", &[code]),
            Command::Exchange(place) => self.line(b"X", &[place]),
            Command::ExchangeBack(place) => self.line(b"Y", &[place]),
            Command::Raise(kind) => self.line(b"N", &[kind]),
            Command::TakeBack => self.bytes(b"B\n"),
            Command::Print => self.bytes(b"P\n"),
        }
    }

    fn commands(&mut self, commands: &[Command])
        requires { self.old.at + length (commands_text commands.now) < 2 ^ 63 }
        ensures { Appends self.old (commands_text commands.now) self.new }
    {
        for command in commands {
            self.command(*command);
        }
    }

    fn text(&mut self, contents: Contents<'_>)
        requires { (self.old.at ≡ 0) × (length (text_of (file_in contents)) < 2 ^ 63) }
        ensures { Appends self.old (text_of (file_in contents.entry)) self.new }
    {
        self.heading(contents.heading);
        self.line(b"row", contents.codes);
        self.commands(contents.commands);
    }
}

// What a file says, borrowed.
#[derive(Clone, Copy)]
struct Contents<'a> {
    heading: Heading,
    codes: &'a [u32],
    commands: &'a [Command],
}

impl Contents<'_> {
    // The first fault by the rules, the length of the text apart.
    fn check(self) -> Result<(), Fault>
        ensures { MatchResult result (λ _. KeepsLines (rowed (file_in self.entry))) (Misfit (file_in self.entry)) }
    {
        if !self.heading.map.parameters_hold() {
            return Err(Fault {
                line: 1,
                refusal: Refusal::BadParameters,
            });
        }
        check_row(self.heading, self.codes).map_err(|refusal| Fault { line: 2, refusal })?;
        check_commands(self.heading, self.commands)
    }

    // Lays the whole text as far as there is room, and answers its length.
    fn lay(self, out: &mut [u8]) -> usize
        requires { length (text_of (file_in self)) < 2 ^ 63 }
        ensures { Lays out.old 0 (text_of (file_in self.entry)) out.new result }
    {
        let mut sink = Sink { out, at: 0 };
        sink.text(self);
        sink.at
    }
}

// Writes the text of a file to the start of `out` and answers its length.
// All is checked before a byte is written.
// Kept: memory handed over and the length answered: the function is public, and memory past the text is promised untouched.
pub fn write(
    heading: Heading,
    codes: &[u32],
    commands: &[Command],
    out: &mut [u8],
) -> Result<usize, Fault>
    ensures { WritesFile (filed heading codes.now commands.now) out.old result out.new }
{
    let contents = Contents {
        heading,
        codes,
        commands,
    };
    contents.check()?;

    let too_long = Fault {
        line: 0,
        refusal: Refusal::TooLong,
    };

    // a command takes two bytes or more, so this many are too long whatever they say, and the length below cannot overflow
    if commands.len() > MAX_BYTES {
        return Err(too_long);
    }
    // Kept: laid twice by one function, first into no room for its length: a walk that only counts would be a second text to prove the same.
    let length = contents.lay(&mut []);
    if length > MAX_BYTES || length > out.len() {
        return Err(too_long);
    }
    contents.lay(out);
    Ok(length)
}
