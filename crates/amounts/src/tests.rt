use crate::*;

fn trade(buyer: u8, seller: u8, contracts: u32, price: u32) -> Trade {
    Trade {
        buyer,
        seller,
        month: 0,
        rate: 10_000,
        contracts,
        price,
    }
}

// The adjustments of two accounts with these positions, in an array with one place more.
fn adjustments(
    session: &mut SessionTrades,
    settlement: u32,
    corrected: u32,
    held: (i32, i32),
) -> [i64; 3] {
    let mut positions = [0; CELLS];
    positions[place(0, 0)] = held.0;
    positions[place(1, 0)] = held.1;
    let prices = [MonthPrices {
        settlement,
        corrected,
    }];
    let mut adjustments = [7; 3];
    session.write_amounts(2, &prices, &positions, &mut adjustments, &mut [0; 2]);
    adjustments
}

#[test]
fn ten_contracts_over_three_sessions(rt: HostRuntime) {
    let mut session = SessionTrades::new();
    assert!(rt; session.accept(trade(0, 1, 10, 9_992_439)));
    let first = adjustments(&mut session, 9_992_500, 0, (-10, 10));
    assert_eq!(rt; first, [-610, 610, 7]);
    session.clear();
    let second = adjustments(&mut session, 9_996_200, 9_996_280, (-10, 10));
    assert_eq!(rt; second, [800, -800, 7]);
    let last = adjustments(&mut session, 10_000_000, 9_999_981, (-10, 10));
    assert_eq!(rt; last, [-190, 190, 7]);
}

#[test]
fn first_contracts_in_order(rt: HostRuntime) {
    let mut session = SessionTrades::new();
    session.accept(trade(1, 0, 6, 9_990_000));
    session.accept(trade(2, 0, 4, 9_991_000));
    session.accept(trade(0, 1, 7, 9_992_000));
    session.accept(trade(3, 3, 5, 9_990_000));
    let prices = [MonthPrices {
        settlement: 1,
        corrected: 1,
    }];
    let mut day_trades = [7; 5];
    assert!(rt; session.write_amounts(4, &prices, &[], &mut [0; 4], &mut day_trades));
    assert_eq!(rt; day_trades, [13_000, -12_000, 0, 0, 7]);
    assert!(rt; !session.write_amounts(5, &prices, &[], &mut [0; 4], &mut day_trades));
    assert_eq!(rt; day_trades, [13_000, -12_000, 0, 0, 7]);
}

#[test]
fn full_session(rt: HostRuntime) {
    let mut session = SessionTrades::new();
    let largest = trade(0, 1, MAX_CONTRACTS, 1);
    assert!(rt; !session.accept(trade(0, 32, 1, 1)));
    for _ in 0..MAX_TRADES {
        assert!(rt; !session.is_full());
        assert!(rt; session.accept(largest));
    }
    assert!(rt; session.is_full());
    assert!(rt; !session.accept(largest));
    let all = adjustments(&mut session, 3, 3, (-500_000, 500_000));
    assert_eq!(rt; all, [-10_240_000, 10_240_000, 7]);
}

#[test]
fn most_carried(rt: HostRuntime) {
    let mut session = SessionTrades::new();
    assert!(rt; session.accept(trade(0, 1, 10, 9_992_439)));
    let both = adjustments(&mut session, 1, 0, (-500_010, 500_010));
    assert_eq!(rt; both, [99_424_380, -99_424_380, 7]);
}

#[test]
fn nothing_carried_to_a_full_session(rt: HostRuntime) {
    let mut session = SessionTrades::new();
    let largest = trade(0, 1, MAX_CONTRACTS, 1);
    for _ in 0..MAX_TRADES {
        assert!(rt; session.accept(largest));
    }
    let all = adjustments(&mut session, 3, 0, (-5_120_000, 5_120_000));
    assert_eq!(rt; all, [-10_240_000, 10_240_000, 7]);
    let past = adjustments(&mut session, 3, 0, (-5_620_001, 5_620_001));
    assert_eq!(rt; past, [5_120_000, -5_120_000, 7]);
}
