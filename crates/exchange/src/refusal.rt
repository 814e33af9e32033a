// Every refusal that the laboratory gives, with the number that it prints.
ghost use Rattle.exchange.specs.Refusals.{number_of};
ghost use Rattle.std.specs.Prelude.{◌≡◌};

#[derive(Clone, Copy, PartialEq, Eq, Debug)]
pub enum Refusal {
    // a text is longer than 32,768 bytes, or than the memory to write it in
    TooLong = 1,
    // a line breaks its form
    BadForm = 2,
    // a number field breaks the number rule
    BadNumber = 3,
    // a map's parameters break its rule
    BadParameters = 4,
    // a number is no code of the map, or an element handed over does not belong
    NoElement = 5,
    // a row of more than 1,024 boxes, or no next box in the row handed over
    RowFull = 6,
    // a sweep finds the log full
    LogFull = 7,
    // a take-back finds the log empty
    LogEmpty = 8,
    // a place whose successor is not in the log, or a kind that no incoming carrier has
    NoPlace = 9,
    // a raise on a map that is not returning
    NotReturning = 10,
    // a row shorter than the box count, or log halves that differ in length or are shorter than the sweep count
    ShortMemory = 11,
    // a stored element does not belong
    Stray = 12,
    // a take-back recovers another carrier than the logged one
    WrongCarrier = 13,
}

impl Refusal {
    pub fn number(self) -> u8
        ensures { result ≡ number_of self }
    {
        self as u8
    }
}
