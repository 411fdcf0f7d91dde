// A settlement price corrected over the reserve days of a gap, day by day.
use crate::failure::{Complaint, Failure, in_words};
use crate::figures::{Counted, FACTOR_PLACES, Fixed, Points, RATE_TOO_HIGH, date};
use crate::office::{Office, read_office};
use crate::words::{DI_PLACES, day, price};
use calendar::kind::Calendar;
use calendar::span::count_reserve_days;
use correction::{Gap, Uncorrected, correct};
use interest::{correct_day, day_factor};
use rates::source::RateSource;
use std::alloc::Global;
use std::fmt;

const HEADING: &str = "reserve day     rate %  source          factor       price\n";

// The greatest settlement price.
const MAX_PRICE: u32 = 10_000_000;

// The gap that three words say.
fn gap_of<'a>(from: &'a str, to: &'a str, points: &'a str) -> Result<Gap, Complaint<'a>> {
    let from = day(from)?;
    let to = day(to)?;
    let price = price(points)?;
    if price == 0 || price > MAX_PRICE {
        return Err(Complaint::Words("price not from 0.01 to 100 000.00"));
    }
    if to < from {
        return Err(Complaint::Words("TO is before FROM"));
    }
    Ok(Gap { from, to, price })
}

// Where the last rate alone would have led; nothing where no day has one.
#[derive(Clone, Copy)]
struct LastAlone {
    price: u32,
    last: Option<u32>,
}

impl fmt::Display for LastAlone {
    fn fmt<W: fmt::Write>(&self, f: &mut fmt::Formatter<W>) -> fmt::Result {
        match self
            .last
            .and_then(|factor| correct_day(self.price as u64, factor))
        {
            Some(hundredths) => writeln!(f, "by the last rate alone: {}", Points { hundredths }),
            None => Ok(()),
        }
    }
}

// A gap, and the office by whose calendar and rates its price is corrected.
#[derive(Clone, Copy)]
struct Correction<'a> {
    office: &'a Office,
    gap: Gap,
}

impl Correction<'_> {
    // The price corrected to a day.
    fn corrected_to(&self, to: u32) -> Result<Points, Uncorrected> {
        let Gap { from, price, .. } = self.gap;
        let gap = Gap { from, to, price };
        let hundredths = correct(&self.office.calendar, &self.office.rates, gap)?;
        Ok(Points { hundredths })
    }

    // The rate of a day that has one.
    fn rate_on(&self, day: u32) -> Result<u32, Uncorrected> {
        self.office
            .rates
            .rate(day)
            .ok_or(Uncorrected::MissingRate(day))
    }

    // Adds the row of a reserve day, with its rate, the factor and the price after it, and answers the
    // factor.
    fn push_row(&self, text: &mut String, day: u32) -> Result<u32, Complaint<'static>> {
        let price = self.corrected_to(day.saturating_add(1))?;
        let rate = self.rate_on(day)?;
        let value = day_factor(rate).ok_or(Complaint::Words(RATE_TOO_HIGH))?;
        let source = if self.office.rates.is_arbitrated(day) {
            "arbitrated"
        } else {
            "published"
        };
        let date = date(day);
        let rate = Fixed {
            value: rate,
            places: DI_PLACES,
        };
        let factor = Fixed {
            value,
            places: FACTOR_PLACES,
        };
        write!(
            text,
            "{date}   {rate:>9}  {source:<10}  {factor:>10}  {price:>10}\n"
        )?;
        Ok(value)
    }

    // The rows of the reserve days, and the factor of the last of them.
    fn rows(&self, heap: Global) -> Result<(String, Option<u32>), Complaint<'static>> {
        let mut text = String::new(heap);
        let mut last = None;
        for day in self.gap.from..self.gap.to {
            if self.office.calendar.kind(day).is_reserve() {
                last = Some(self.push_row(&mut text, day)?);
            }
        }
        Ok((text, last))
    }

    // The whole print.
    fn print(&self, heap: Global) -> Result<String, Complaint<'static>> {
        let Gap { from, to, price } = self.gap;
        let start = Points {
            hundredths: price as u64,
        };
        let corrected = self.corrected_to(to)?;
        let (rows, last) = self.rows(heap)?;
        let days = Counted {
            count: i128::from(count_reserve_days(&self.office.calendar, from, to)),
            one: "reserve day",
            many: "reserve days",
        };
        let from = date(from);
        let to = date(to);
        let alone = LastAlone { price, last };
        let head = format!(in heap; "from {from} at {start}\n{HEADING}{rows}")?;
        Ok(format!(in heap; "{head}to {to}: {corrected} over {days}\n{alone}")?)
    }
}

// Corrects a settlement price over a gap by the office's calendar and rates.
pub(crate) fn correct_gap(
    rt: &HostRuntime,
    office: &str,
    from: &str,
    to: &str,
    price: &str,
) -> Result<String, Failure> {
    let heap = rt.alloc();
    let office = read_office(rt, office)?;
    let gap = in_words(heap, gap_of(from, to, price))?;
    let correction = Correction {
        office: &office,
        gap,
    };
    in_words(heap, correction.print(heap))
}
