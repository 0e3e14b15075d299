//! Numbers read and written.
ghost use Rattle.std.specs.Prelude.{◌≤◌};

use arrayvec::ArrayString;
use prof_time::{TimeRange, is_whole, read_exact, read_scaled, write_scaled};

#[test]
fn rounds_to_the_nearest(rt: HostRuntime) {
    assert_eq!(rt; read_scaled(b"1.0000005", 6), Ok(1_000_001));
    assert_eq!(rt; read_scaled(b"-1.0000005", 6), Ok(-1_000_001));
    assert_eq!(rt; read_scaled(b"1e-7", 6), Ok(0));
    assert_eq!(rt; read_scaled(b"-1.50e+2", 1), Ok(-1500));
}

#[test]
fn ends_at_the_range(rt: HostRuntime) {
    assert_eq!(rt;
        read_scaled(b"9000000000000", 6),
        Ok(9_000_000_000_000_000_000)
    );
    assert_eq!(rt; read_scaled(b"9000000000000.000001", 6), Err(TimeRange));
}

#[test]
fn reads_great_exponents(rt: HostRuntime) {
    assert_eq!(rt; read_scaled(b"1e999999999", 0), Err(TimeRange));
    assert_eq!(rt; read_scaled(b"0e999999999", 0), Ok(0));
    assert_eq!(rt; read_scaled(b"1e-999999999", 0), Ok(0));
}

#[test]
fn reads_short_numbers(rt: HostRuntime) {
    assert_eq!(rt; read_scaled(b"0", 6), Ok(0));
    assert_eq!(rt; read_scaled(b"0.000001", 6), Ok(1));
    assert_eq!(rt; read_scaled(b"12.3456785", 6), Ok(12_345_679));
    assert_eq!(rt; read_scaled(b"0.9999994999999999", 6), Ok(999_999));
    assert_eq!(rt;
        read_scaled(b"1000000000000000.5", 0),
        Ok(1_000_000_000_000_001)
    );
    assert_eq!(rt;
        read_scaled(b"1000000000000000000", 0),
        Ok(1_000_000_000_000_000_000)
    );
    assert_eq!(rt; read_scaled(b"99999999999999", 6), Err(TimeRange));
    assert_eq!(rt;
        read_exact(b"999999999999999999"),
        Some(999_999_999_999_999_999)
    );
    assert_eq!(rt; read_exact(b"12.00"), Some(12));
}

#[test]
fn tells_whole_numbers(rt: HostRuntime) {
    assert_eq!(rt;
        read_exact(b"18446744073709551615"),
        Some(18_446_744_073_709_551_615)
    );
    assert_eq!(rt; read_exact(b"18446744073709551616"), None);
    assert_eq!(rt; read_exact(b"-2.50e1"), Some(-25));
    assert_eq!(rt; read_exact(b"1.5"), None);
    assert!(rt; is_whole(b"1e30"));
    assert!(rt; !is_whole(b"1.5"));
}

fn text(n: i64, decimals: u32) -> ArrayString<32>
    requires { decimals ≤ 6 }
{
    let mut out = ArrayString::new();
    write_scaled(n, decimals, &mut out);
    out
}

#[test]
fn writes_the_shortest_text(rt: HostRuntime) {
    assert_eq!(rt; text(1_500_000, 6).as_str(), "1.5");
    assert_eq!(rt; text(-20, 1).as_str(), "-2");
    assert_eq!(rt; text(5, 3).as_str(), "0.005");
    assert_eq!(rt; text(0, 6).as_str(), "0");
    assert_eq!(rt; text(i64::MIN, 6).as_str(), "-9223372036854.775808");
    assert_eq!(rt; text(120, 0).as_str(), "120");
}
