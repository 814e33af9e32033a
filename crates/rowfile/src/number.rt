// Numbers in decimal.
ghost use Rattle.std.specs.Prelude.{◌<◌, ◌≤◌, length};
ghost use Rattle.std.specs.Option.{SomeIff};
ghost use Rattle.std.specs.Str.Parse.{IsNumeral, digits_value};
ghost use Rattle.rowfile.specs.Lines.{ReadsNumber};

// The field breaks the number rule.
#[derive(Clone, Copy)]
pub struct BadNumber;

// The number that `field` writes. Its first byte is looked at apart from the rest, which rules out leading zeros and the empty field.
pub fn number(field: &[u8]) -> Result<u32, BadNumber>
    ensures { ReadsNumber field.now result }
{
    let [first, rest @ ..] = field else {
        return Err(BadNumber);
    };
    match *first {
        b'0' if rest.is_empty() => Ok(0),
        b'1'..=b'9' => value(field).ok_or(BadNumber),
        _ => Err(BadNumber),
    }
}

// The number of the digits, if they are digits and it is no larger than a `u32`.
// Kept: a loop, since `parse` wants a `str`: to make one and to parse it took reading from 0.9 to 1.2 times plain Rust's instructions.
fn value(digits: &[u8]) -> Option<u32>
    requires { 0 < length digits.now }
    ensures { SomeIff result (IsNumeral 10 digits.now × (digits_value 10 digits.now ≤ 4294967295)) (digits_value 10 digits.now) }
{
    let mut value = 0u32;
    for digit in digits {
        let digit = char::from(*digit).to_digit(10)?;
        value = value.checked_mul(10)?.checked_add(digit)?;
    }
    Some(value)
}
