// Numbers with a point.
use decimals::DecimalFault::{MoreDecimals, NotNumber, TooLong};
use decimals::{DecimalFault, read_scaled, write_scaled};

const NINES: i64 = 999_999_999_999_999_999;

// A text, a scale, and its value at that scale or its fault.
const ROWS: [(&str, u8, Result<i64, DecimalFault>); 55] = [
    ("", 0, Err(NotNumber)),
    ("+", 0, Err(NotNumber)),
    ("-", 0, Err(NotNumber)),
    (".", 0, Err(NotNumber)),
    ("-.", 2, Err(NotNumber)),
    (".5", 1, Err(NotNumber)),
    ("5.", 0, Err(NotNumber)),
    ("5.", 1, Err(NotNumber)),
    ("--5", 0, Err(NotNumber)),
    ("+-5", 0, Err(NotNumber)),
    ("5-", 0, Err(NotNumber)),
    ("1.-5", 1, Err(NotNumber)),
    ("1.2.3", 1, Err(NotNumber)),
    ("1..2", 1, Err(NotNumber)),
    ("1e5", 0, Err(NotNumber)),
    ("1,5", 1, Err(NotNumber)),
    ("1 5", 0, Err(NotNumber)),
    (" 5", 0, Err(NotNumber)),
    ("5 ", 0, Err(NotNumber)),
    ("/", 0, Err(NotNumber)),
    (":", 0, Err(NotNumber)),
    ("1.5x", 1, Err(NotNumber)),
    ("9999999999999999999x", 0, Err(NotNumber)),
    ("1.57x", 1, Err(NotNumber)),
    ("0", 0, Ok(0)),
    ("-0", 0, Ok(0)),
    ("+5", 0, Ok(5)),
    ("-5", 0, Ok(-5)),
    ("-5", 2, Ok(-500)),
    ("007", 0, Ok(7)),
    ("1.5", 0, Err(MoreDecimals)),
    ("1.5", 1, Ok(15)),
    ("-1.5", 3, Ok(-1500)),
    ("1.50", 1, Ok(15)),
    ("1.05", 1, Err(MoreDecimals)),
    ("1.000", 0, Ok(1)),
    ("1.0001", 3, Err(MoreDecimals)),
    ("-0.1", 1, Ok(-1)),
    ("0.123456789", 9, Ok(123_456_789)),
    ("1", 9, Ok(1_000_000_000)),
    ("999999999", 9, Ok(999_999_999_000_000_000)),
    ("1000000000", 9, Err(TooLong)),
    ("999999999999999999", 0, Ok(NINES)),
    ("-999999999999999999", 0, Ok(-NINES)),
    ("999999999999999999", 1, Err(TooLong)),
    ("1000000000000000000", 0, Err(TooLong)),
    ("-1000000000000000000", 0, Err(TooLong)),
    ("000000000000000000000999999999999999999", 0, Ok(NINES)),
    ("00000000000000000000.5", 1, Ok(5)),
    ("12345678901234567.89", 1, Err(MoreDecimals)),
    ("12345678901234567.80", 1, Ok(123_456_789_012_345_678)),
    ("123456789012345678.9", 1, Err(TooLong)),
    ("123456789012345678.9", 0, Err(MoreDecimals)),
    ("1234567890123456789.1", 0, Err(TooLong)),
    ("99999999999999999999999999999999999999999", 0, Err(TooLong)),
];

fn is_value(text: &str, scale: u8, want: Result<i64, DecimalFault>) -> bool {
    scale <= 9 && read_scaled(text.as_bytes(), scale) == want
}

#[test]
fn a_text_has_its_value_or_its_first_fault(rt: HostRuntime) {
    for (text, scale, want) in &ROWS {
        assert!(rt; is_value(text, *scale, *want), "{text} at {scale}");
    }
}

#[test]
fn a_text_of_any_length_is_read(rt: HostRuntime) {
    for (digit, want) in [(b'0', Ok(7)), (b'9', Err(TooLong)), (b'x', Err(NotNumber))] {
        let mut text = [digit; 3001];
        text[3000] = b'7';
        assert!(rt; read_scaled(&text, 0) == want, "of {digit}");
    }
}

// A value, a scale, and its text with as many decimals.
const WRITTEN: [(i64, u8, &str); 22] = [
    (0, 0, "0"),
    (0, 1, "0.0"),
    (0, 9, "0.000000000"),
    (1, 0, "1"),
    (1, 1, "0.1"),
    (1, 9, "0.000000001"),
    (-1, 0, "-1"),
    (-1, 1, "-0.1"),
    (-1, 9, "-0.000000001"),
    (7, 3, "0.007"),
    (-40, 2, "-0.40"),
    (999, 3, "0.999"),
    (1000, 3, "1.000"),
    (-1005, 3, "-1.005"),
    (10_000, 3, "10.000"),
    (2_600_020_000, 3, "2600020.000"),
    (NINES, 0, "999999999999999999"),
    (NINES, 1, "99999999999999999.9"),
    (NINES, 9, "999999999.999999999"),
    (-NINES, 0, "-999999999999999999"),
    (-NINES, 1, "-99999999999999999.9"),
    (-NINES, 9, "-999999999.999999999"),
];

// Whether the text is written of the value, read back, and nothing is written after it.
fn is_written(value: i64, scale: u8, want: &[u8]) -> bool {
    if scale > 9 || value.unsigned_abs() >= 1_000_000_000_000_000_000 {
        return false;
    }
    let mut into = [b'#'; 24];
    let length = write_scaled(value, scale, &mut into).min(24);
    let (text, rest) = into.split_at(length);
    text == want && read_scaled(text, scale) == Ok(value) && rest.iter().all(|byte| *byte == b'#')
}

#[test]
fn a_value_is_written_with_its_decimals_and_read_back(rt: HostRuntime) {
    for (value, scale, want) in &WRITTEN {
        assert!(rt; is_written(*value, *scale, want.as_bytes()), "{want}");
    }
}
