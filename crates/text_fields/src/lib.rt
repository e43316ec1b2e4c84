// Numbers and dates as a line of text has them.
#![tactic(auto)]

ghost use Rattle.std.specs.Prelude.{◌≡◌, ◌^◌, ◌<◌, length, IfSome};
ghost use Rattle.text_fields.specs.Fields.{decimal_of, day_shaped, day_of};

use calendar::CivilDate;

// The number that one to nine decimal digits write; none for any other text.
pub fn decimal(text: &[u8]) -> Option<u32>
    ensures value { result ≡ decimal_of text.now }
    ensures bound { IfSome result (λ n. n < 10 ^ length text.now) }
{
    if !matches!(text.len(), 1..=9) {
        return None;
    }
    // A `for`: of `try_fold` the goal `callable` stays open, since that the sum fits hangs on how many digits were read.
    let mut value = 0;
    for byte in text {
        if !byte.is_ascii_digit() {
            return None;
        }
        value = value * 10 + u32::from(*byte - b'0');
    }
    Some(value)
}

fn has_hyphens(text: &[u8]) -> bool
    ensures { result ≡ day_shaped text.now }
{
    matches!(text, [_, _, _, _, b'-', _, _, b'-', _, _])
}

// A day written as 2007-04-30; none for any other text. The calendar may lack that day.
pub fn day(text: &[u8]) -> Option<CivilDate>
    ensures { result ≡ day_of text.now }
{
    if !has_hyphens(text) {
        return None;
    }
    Some(CivilDate {
        year: decimal(&text[0..4])? as u16,
        month: decimal(&text[5..7])? as u8,
        day: decimal(&text[8..10])? as u8,
    })
}
