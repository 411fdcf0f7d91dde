// The price of a trade on a calendar, or why it has none.
ghost use Rattle.std.specs.Prelude.{◌≡◌, Some, IfOk};
ghost use Rattle.std.specs.Result.{result_err};
ghost use Rattle.pricing.specs.Pricing.{first_cause, in_price, priced_trade, message, unpriceable_cause};

use calendar::kind::Calendar;
use calendar::span::{count_reserve_days, expiry};
use dates::month_of;
use interest::{MAX_DEALT_RATE, Unpriceable, on_tick, trade_price};
use sheet::TradeLine;
use std::error::Error;
use std::fmt;

/// Who buys and who sells in price.
#[derive(Clone, Copy, PartialEq, Eq, Debug)]
pub struct Sides {
    pub buyer: u8,
    pub seller: u8,
}

/// The sides of a trade turned into price: a buyer in rate is a seller in price.
pub fn in_price(trade: TradeLine) -> Sides
    ensures { result ≡ in_price trade }
{
    Sides {
        buyer: trade.seller,
        seller: trade.buyer,
    }
}

/// A trade in price: who buys, who sells, the day of the expiry, the reserve days to it, and the
/// price in hundredths of a point.
// Kept: the definition of a trade in price has these five fields; one of Sides in place of two would lengthen every read.
#[derive(Clone, Copy, PartialEq, Eq, Debug)]
pub struct PricedTrade {
    pub buyer: u8,
    pub seller: u8,
    pub expiry: u32,
    pub days: u32,
    pub price: u32,
}

/// Why a trade is not priced: its month has no session at all; it does not expire after the
/// session; its rate is too high, or off the tick of its distance; it is too far from its expiry.
// Kept: the causes stand in the order of the rules, with the tick between those of Unpriceable.
#[derive(Clone, Copy, PartialEq, Eq, Debug)]
pub enum Cause {
    NoSession,
    Expired,
    RateTooHigh,
    OffTick,
    TooFar,
}

// Kept: a derived Display states no output, which pins the words.
impl fmt::Display for Cause {
    ghost output = { λ cause. Some (message cause) };

    fn fmt<W: fmt::Write>(&self, f: &mut fmt::Formatter<W>) -> fmt::Result {
        match self {
            Cause::NoSession => write!(f, "month has no session"),
            Cause::Expired => write!(f, "expired"),
            Cause::RateTooHigh => write!(f, "rate over 99.999 %"),
            Cause::OffTick => write!(f, "rate off the tick"),
            Cause::TooFar => write!(f, "over 2520 reserve days"),
        }
    }
}

impl Error for Cause {}

impl From<Unpriceable> for Cause {
    ghost from_gives = { λ unpriceable cause. cause ≡ unpriceable_cause unpriceable };

    fn from(unpriceable: Unpriceable) -> Cause {
        match unpriceable {
            Unpriceable::RateTooHigh => Cause::RateTooHigh,
            Unpriceable::TooFar => Cause::TooFar,
        }
    }
}

/// Prices a trade of a session by its rate, if no cause holds; else the first that does.
pub fn price_trade<C: Calendar>(
    calendar: &C,
    session: u32,
    trade: TradeLine,
) -> Result<PricedTrade, Cause>
    ensures cause { result_err result ≡ first_cause (C.kinds calendar.now) session trade }
    ensures value { IfOk result (λ p. p ≡ priced_trade (C.kinds calendar.now) session trade) }
{
    let expiry = expiry(calendar, trade.month).ok_or(Cause::NoSession)?;
    if expiry <= session {
        return Err(Cause::Expired);
    }
    if trade.rate > MAX_DEALT_RATE {
        return Err(Cause::RateTooHigh);
    }
    let month = month_of(session).unwrap();
    if !on_tick(trade.rate, trade.month.saturating_sub(month)) {
        return Err(Cause::OffTick);
    }
    let days = count_reserve_days(calendar, session, expiry);
    let Sides { buyer, seller } = in_price(trade);
    let price = trade_price(trade.rate, days)?;
    Ok(PricedTrade {
        buyer,
        seller,
        expiry,
        days,
        price,
    })
}
