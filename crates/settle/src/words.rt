// Words of commands and of lines, as numbers, rates, prices, dates and codes.
ghost use Rattle.std.specs.Prelude.{◌≤◌, IfOk};

use crate::failure::Complaint;
use dates::Date;
use sheet::ContractCode;

// Decimals after the point of a dealt rate, a price and a DI rate.
pub(crate) const RATE_PLACES: u32 = 3;

pub(crate) const PRICE_PLACES: u32 = 2;

pub(crate) const DI_PLACES: u32 = 6;

const DIGITS: &str = "digits, at most 4294967295";

// What a word gave, or a complaint that names it and says what was expected.
pub(crate) fn or_no_such<'a, T: Drop>(
    what: &'static str,
    word: &'a str,
    expected: &'static str,
    value: Option<T>,
) -> Result<T, Complaint<'a>> {
    value.ok_or(Complaint::NoSuch {
        what,
        word,
        expected,
    })
}

// A number of digits alone.
fn digits(word: &str) -> Option<u32> {
    if word.starts_with('+') {
        return None;
    }
    word.parse::<u32>().ok()
}

// A number with a point and up to so many decimals, in units of the last of them.
fn decimal(word: &str, places: u32) -> Option<u32> {
    let Some((whole, decimals)) = word.split_once('.') else {
        return digits(word)?.checked_mul(10u32.checked_pow(places)?);
    };
    let missing = places.checked_sub(u32::try_from(decimals.len()).ok()?)?;
    let fraction = digits(decimals)?.checked_mul(10u32.checked_pow(missing)?)?;
    digits(whole)?
        .checked_mul(10u32.checked_pow(places)?)?
        .checked_add(fraction)
}

pub(crate) fn number<'a>(word: &'a str) -> Result<u32, Complaint<'a>> {
    or_no_such("no number", word, DIGITS, digits(word))
}

pub(crate) fn quantity<'a>(word: &'a str) -> Result<u32, Complaint<'a>> {
    or_no_such("no quantity", word, DIGITS, digits(word))
}

pub(crate) fn account<'a>(word: &'a str) -> Result<u8, Complaint<'a>> {
    let index = digits(word).and_then(|number| u8::try_from(number).ok());
    or_no_such("no account", word, "a number up to 255", index)
}

// A number up to 65,535, where the word is one.
pub(crate) fn sheet_day(word: &str) -> Option<u16> {
    digits(word).and_then(|number| u16::try_from(number).ok())
}

// The day of a date.
pub(crate) fn day<'a>(word: &'a str) -> Result<u32, Complaint<'a>>
    ensures { IfOk result (λ day. day ≤ 36524) }
{
    let expected = "one like 2026-12-30, from 2000-01-01 to 2099-12-31";
    let date = or_no_such("no date", word, expected, word.parse::<Date>().ok())?;
    Ok(date.day_number())
}

// The month of a contract code.
pub(crate) fn month<'a>(word: &'a str) -> Result<u32, Complaint<'a>> {
    let contract = ContractCode::from_bytes(word.as_bytes());
    let contract = or_no_such("no contract code", word, "one like DI1F27", contract)?;
    Ok(contract.month())
}

// A dealt rate, in thousandths of a percent.
pub(crate) fn dealt_rate<'a>(word: &'a str) -> Result<u32, Complaint<'a>> {
    let expected = "a percentage like 10.5, with at most 3 decimals";
    or_no_such("no rate", word, expected, decimal(word, RATE_PLACES))
}

// A DI rate, in millionths of a percent.
pub(crate) fn di_rate<'a>(word: &'a str) -> Result<u32, Complaint<'a>> {
    let expected = "a percentage like 10.5, with at most 6 decimals";
    or_no_such("no rate", word, expected, decimal(word, DI_PLACES))
}

// A price in points, in centavos.
pub(crate) fn price<'a>(word: &'a str) -> Result<u32, Complaint<'a>> {
    let expected = "points like 99925.00, with at most 2 decimals";
    or_no_such("no price", word, expected, decimal(word, PRICE_PLACES))
}
