use crate::*;
use calendar::rule::{Exception, RuleCalendar};
use interest::Unpriceable;
use sheet::{TradeLine, read, write};
use std::test::Fail;

fn trade(month: u32, rate: u32) -> TradeLine {
    TradeLine {
        buyer: 0,
        seller: 1,
        month,
        rate,
        quantity: 10,
    }
}

#[test]
fn priced_at_the_edges(rt: HostRuntime) -> Result<(), Fail> {
    let calendar = RuleCalendar::new(rt.alloc(), &[Exception::of_mark(9_862, 0)])?;
    let first = PricedTrade {
        buyer: 1,
        seller: 0,
        expiry: 9_865,
        days: 2,
        price: 9_992_439,
    };
    assert_eq!(rt;
        price_trade(&calendar, 9_860, trade(324, 10_000)),
        Ok(first)
    );
    let refused = [
        (1_200, 10_000, Cause::NoSession),
        (323, 10_000, Cause::Expired),
        (324, 100_000, Cause::RateTooHigh),
        (327, 4, Cause::OffTick),
        (336, 15, Cause::OffTick),
        (444, 10_000, Cause::TooFar),
    ];
    for (month, rate, cause) in refused {
        assert_eq!(rt;
            price_trade(&calendar, 9_860, trade(month, rate)),
            Err(cause)
        );
    }
    assert!(rt; price_trade(&calendar, 9_860, trade(327, 5)).is_ok());
    assert!(rt; price_trade(&calendar, 9_860, trade(336, 20)).is_ok());
    Ok(())
}

#[test]
fn causes_said(rt: HostRuntime) -> Result<(), Fail> {
    let text = format!(in rt.alloc();
        "{}; {}; {}; {}; {}",
        Cause::NoSession,
        Cause::Expired,
        Cause::RateTooHigh,
        Cause::OffTick,
        Cause::TooFar
    )?;
    assert!(rt;
        text.as_str()
            == "month has no session; expired; rate over 99.999 %; rate off the tick; over 2520 reserve days"
    );
    assert_eq!(rt; Cause::from(Unpriceable::TooFar), Cause::TooFar);
    Ok(())
}

#[test]
fn added_up(rt: HostRuntime) -> Result<(), Fail> {
    let calendar = RuleCalendar::new(rt.alloc(), &[])?;
    let mut bytes = [0; 100];
    let trades = [trade(324, 10_000), trade(323, 10_000), trade(324, 10_001)];
    let length = write(9_860, &trades, &mut bytes)?;
    assert!(rt; length <= 100);
    let view = read(&bytes[0..length])?;
    assert_eq!(rt;
        add_up(&view, &AnyTrade),
        Tally {
            lines: 3,
            contracts: 30,
        }
    );
    assert_eq!(rt;
        add_up(&view, &InMonth { month: 323 }),
        Tally {
            lines: 1,
            contracts: 10,
        }
    );
    let priced = OnCalendar {
        calendar: &calendar,
        session: 9_860,
    };
    assert_eq!(rt;
        add_up(&view, &priced),
        Tally {
            lines: 2,
            contracts: 20,
        }
    );
    Ok(())
}
