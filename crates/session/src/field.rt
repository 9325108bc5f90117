// Number fields: ten bytes of spaces and then digits.
ghost use Rattle.std.specs.Prelude.{◌≡◌, ◌==◌, not, position, IfOk, if◌then◌else◌, Some, Ok, Err, nat_le};
ghost use Rattle.wire.specs.Numbers.{most32};
ghost use Rattle.session.specs.Fields.{one_more, digits_after, numeral as numeralOf, number_of, number_field};

use codes::Refusal;
use wire::MOST;

// The bytes of a number field.
pub type NumberField = [u8; 10];

// The number that a field says: spaces, then one or more digits without a leading zero.
#[tactic(auto, using(crate::proofs::Digits::number_behind, crate::proofs::Digits::all_spaces))]
pub fn read_number(field: &[u8]) -> Option<u32>
    ensures { result ≡ number_of field.now }
{
    let from = unpadded(field)?;
    numeral(&field[from..])
}

// Where the spaces in front end.
fn unpadded(field: &[u8]) -> Option<usize>
    ensures { result ≡ position (λ b. not (b == 32)) field.now }
{
    field.iter().position(|b| *b != b' ')
}

fn numeral(digits: &[u8]) -> Option<u32>
    ensures { result ≡ numeralOf digits.now }
{
    match digits {
        [] => None,
        [b'0'] => Some(0),
        [b'0', ..] => None,
        _ => value(digits),
    }
}

fn value(digits: &[u8]) -> Option<u32>
    ensures { result ≡ digits_after 0 digits.now }
{
    digits
        .iter()
        .try_fold(0, |value, digit| with_digit(value, *digit))
}

// The value with one digit more, where that is a digit and the value stays within the limit.
fn with_digit(value: u32, digit: u8) -> Option<u32>
    ensures { result ≡ one_more value digit }
{
    if !digit.is_ascii_digit() {
        return None;
    }
    let more = value.checked_mul(10)?.checked_add(u32::from(digit - b'0'))?;
    (more <= MOST).then_some(more)
}

// The field that says a number, right-justified in spaces. It reads back as that number.
pub fn write_number(number: u32) -> Result<NumberField, Refusal>
    ensures value { result ≡ (if nat_le number most32 then Ok (number_field number) else Err Refusal.NoRequest) }
    ensures reads_back { IfOk result (λ field. number_of field ≡ Some number) }
{
    if number > MOST {
        return Err(Refusal::NoRequest);
    }
    let mut field = [b' '; 10];
    let mut left = number;
    // By its index: behind `iter_mut().rev()` nothing is known of the array.
    for at in (0..10).rev() {
        field[at] = b'0' + (left % 10) as u8;
        left /= 10;
        if left == 0 {
            break;
        }
    }
    Ok(field)
}
