// Figures as people read them: rates, factors, prices, amounts and counts. Where a width is asked for,
// a figure stands to the right in it.
use crate::failure::Complaint;
use crate::words::{RATE_PLACES, dealt_rate, di_rate, number};
use dates::Day;
use interest::{day_factor, trade_price};
use sheet::ContractCode;
use std::alloc::Global;
use std::fmt;

// Decimals after the point of a day factor.
pub(crate) const FACTOR_PLACES: u32 = 8;

// A DI rate that has no day factor.
pub(crate) const RATE_TOO_HIGH: &str = "rate over 99.999999 %";

// A number with so many decimals after the point.
#[derive(Clone, Copy)]
pub(crate) struct Fixed {
    pub(crate) value: u32,
    pub(crate) places: u32,
}

impl Fixed {
    // A dealt rate, in thousandths of a percent.
    pub(crate) fn dealt_rate(value: u32) -> Fixed {
        Fixed {
            value,
            places: RATE_PLACES,
        }
    }
}

impl fmt::Display for Fixed {
    fn fmt<W: fmt::Write>(&self, f: &mut fmt::Formatter<W>) -> fmt::Result {
        let unit = 10u32.saturating_pow(self.places).max(1);
        let places = self.places as usize;
        let whole = self.value / unit;
        let rest = self.value % unit;
        let before = f
            .width()
            .unwrap_or(0)
            .saturating_sub(places.saturating_add(1));
        write!(f, "{whole:>before$}.{rest:0places$}")
    }
}

// A price in hundredths of a point, with a space before the last three digits of the points.
#[derive(Clone, Copy)]
pub(crate) struct Points {
    pub(crate) hundredths: u64,
}

impl fmt::Display for Points {
    fn fmt<W: fmt::Write>(&self, f: &mut fmt::Formatter<W>) -> fmt::Result {
        let width = f.width().unwrap_or(0);
        let points = self.hundredths / 100;
        let rest = self.hundredths % 100;
        let thousands = points / 1_000;
        let ones = points % 1_000;
        if thousands > 0 {
            let before = width.saturating_sub(7);
            write!(f, "{thousands:>before$} {ones:03}.{rest:02}")
        } else {
            let before = width.saturating_sub(3);
            write!(f, "{ones:>before$}.{rest:02}")
        }
    }
}

// An amount of so many hundredths, in reais, with a minus where it is below 0.
#[derive(Clone, Copy)]
pub(crate) struct Reais {
    pub(crate) centavos: i64,
}

impl fmt::Display for Reais {
    fn fmt<W: fmt::Write>(&self, f: &mut fmt::Formatter<W>) -> fmt::Result {
        let before = f.width().unwrap_or(0).saturating_sub(3);
        let whole = self.centavos / 100;
        let rest = self.centavos.unsigned_abs() % 100;
        if self.centavos < 0 && whole == 0 {
            let whole = "-0";
            write!(f, "{whole:>before$}.{rest:02}")
        } else {
            write!(f, "{whole:>before$}.{rest:02}")
        }
    }
}

// A count of things, in the word for one or for many.
#[derive(Clone, Copy)]
pub(crate) struct Counted {
    pub(crate) count: i128,
    pub(crate) one: &'static str,
    pub(crate) many: &'static str,
}

impl Counted {
    pub(crate) fn lines(count: i128) -> Counted {
        Counted {
            count,
            one: "line",
            many: "lines",
        }
    }

    pub(crate) fn contracts(count: i128) -> Counted {
        Counted {
            count,
            one: "contract",
            many: "contracts",
        }
    }
}

impl fmt::Display for Counted {
    fn fmt<W: fmt::Write>(&self, f: &mut fmt::Formatter<W>) -> fmt::Result {
        let alone = self.count == 1 || self.count == -1;
        let word = if alone { self.one } else { self.many };
        write!(f, "{} {word}", self.count)
    }
}

// The code of a month, shown as nothing where it has none.
#[derive(Clone, Copy)]
pub(crate) struct Code {
    pub(crate) month: u32,
}

impl fmt::Display for Code {
    fn fmt<W: fmt::Write>(&self, f: &mut fmt::Formatter<W>) -> fmt::Result {
        match ContractCode::new(self.month) {
            Some(code) => write!(f, "{code}"),
            None => Ok(()),
        }
    }
}

// A day by its number, as it is printed.
pub(crate) fn date(number: u32) -> Day {
    Day { number }
}

// The print of the command `price`.
pub(crate) fn price_print<'a>(
    heap: Global,
    rate: &'a str,
    days: &'a str,
) -> Result<String, Complaint<'a>> {
    let dealt = dealt_rate(rate)?;
    let count = number(days)?;
    let price = Points {
        hundredths: trade_price(dealt, count)? as u64,
    };
    Ok(format!(in heap; "{price}\n")?)
}

// The print of the command `factor`.
pub(crate) fn factor_print<'a>(heap: Global, rate: &'a str) -> Result<String, Complaint<'a>> {
    let factor = Fixed {
        value: day_factor(di_rate(rate)?).ok_or(Complaint::Words(RATE_TOO_HIGH))?,
        places: FACTOR_PLACES,
    };
    Ok(format!(in heap; "{factor}\n")?)
}
