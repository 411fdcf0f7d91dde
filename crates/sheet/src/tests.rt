// Codes at the ends of their range, and sheets at each cause of refusal.
use super::*;
use std::test::Fail;

#[test]
fn codes(rt: HostRuntime) -> Result<(), Fail> {
    for (month, text) in [
        (0, b"DI1F00"),
        (324, b"DI1F27"),
        (335, b"DI1Z27"),
        (1199, b"DI1Z99"),
    ] {
        let code = ContractCode::new(month).ok_or_else(|| Fail::new("a month has no code"))?;
        assert!(rt; code.bytes() == *text);
        assert_eq!(rt; ContractCode::from_bytes(text), Some(code));
    }
    assert!(rt; ContractCode::new(1200).is_none());
    for text in [b"DI1A27", b"DI1f27", b"DI1F2:", b"DI1F/7", b"DI2F27"] {
        assert!(rt; ContractCode::from_bytes(text).is_none());
    }
    assert!(rt; ContractCode::from_bytes(b"DI1F2").is_none());
    assert!(rt; ContractCode::from_bytes(b"DI1F270").is_none());
    Ok(())
}

#[test]
fn shown(rt: HostRuntime) -> Result<(), Fail> {
    let code = ContractCode::new(324).ok_or_else(|| Fail::new("a month has no code"))?;
    let text = format!(in rt.alloc(); "{code}")?;
    assert!(rt; text.as_str() == "DI1F27");
    Ok(())
}

const LINES: [TradeLine; 2] = [
    TradeLine {
        buyer: 1,
        seller: 2,
        month: 324,
        rate: 10_000,
        quantity: 5,
    },
    TradeLine {
        buyer: 255,
        seller: 0,
        month: 1199,
        rate: 4_294_967_295,
        quantity: 65_536,
    },
];

const SHEET: [u8; 36] =
    *b"\x02\x00\x39\x30\x01\x02\xff\x00DI1F27\x10\x27\x00\x00\x05\x00\x00\x00DI1Z99\xff\xff\xff\xff\x00\x00\x01\x00";

#[test]
fn written(rt: HostRuntime) {
    let mut out = [7; 38];
    assert_eq!(rt; write(12_345, &LINES, &mut out), Ok(36));
    assert!(rt; &out[0..36] == SHEET.as_slice());
    assert!(rt; &out[36..38] == [7, 7].as_slice());
    let mut short = [7; 35];
    assert_eq!(rt; write(12_345, &LINES, &mut short), Err(WriteFault::Short));
    assert!(rt; short == [7; 35]);
    let bad = [TradeLine {
        buyer: 1,
        seller: 2,
        month: 1200,
        rate: 0,
        quantity: 0,
    }];
    assert_eq!(rt; write(0, &bad, &mut out), Err(WriteFault::BadSheet));
    assert!(rt; &out[0..36] == SHEET.as_slice());
}

#[test]
fn read_back(rt: HostRuntime) -> Result<(), Fail> {
    let view = read(&SHEET)?;
    assert_eq!(rt; view.day(), 12_345);
    assert_eq!(rt; view.count(), 2);
    assert_eq!(rt; view.trade(0), Some(LINES[0]));
    assert_eq!(rt; view.trade(1), Some(LINES[1]));
    assert_eq!(rt; view.trade(2), None);
    for (line, trade) in view.trades().enumerate() {
        assert_eq!(rt; view.trade(line), Some(trade));
    }
    assert_eq!(rt; view.trades().count(), 2);
    Ok(())
}

#[test]
fn refused(rt: HostRuntime) {
    assert_eq!(rt; fault(&SHEET[0..3]), Some(SheetFault::Length));
    assert_eq!(rt; fault(&SHEET[0..35]), Some(SheetFault::Length));
    assert_eq!(rt; fault(b"\x01\x01\x00\x00"), Some(SheetFault::Count));
    let mut bytes = SHEET;
    bytes[22] = b'd';
    assert_eq!(rt; fault(&bytes), Some(SheetFault::Code(1)));
    assert_eq!(rt; fault_for(&bytes, 12_344), Some(SheetFault::Day));
    assert_eq!(rt; fault_for(&bytes, 12_345), Some(SheetFault::Code(1)));
    assert_eq!(rt; SheetFault::Code(1).line(), 1);
    assert_eq!(rt; SheetFault::Day.line(), 0);
    assert_eq!(rt; fault_for(&SHEET, 12_345), None);
}

fn fault(bytes: &[u8]) -> Option<SheetFault> {
    read(bytes).err()
}

fn fault_for(bytes: &[u8], day: u32) -> Option<SheetFault> {
    read_for(bytes, day).err()
}

#[test]
fn faults_said(rt: HostRuntime) -> Result<(), Fail> {
    let text = format!(in rt.alloc();
        "{}; {}; {}; {}; {}; {}",
        SheetFault::Length,
        SheetFault::Count,
        SheetFault::Day,
        SheetFault::Code(1),
        WriteFault::Short,
        WriteFault::BadSheet
    )?;
    assert!(rt;
        text.as_str()
            == "length not that of the count; count over 256; another day; no contract code on line 1; array too short; trades of no sheet"
    );
    Ok(())
}
