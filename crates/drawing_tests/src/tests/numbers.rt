//! Numbers with three decimals. Their texts were written by hand.

use pt_core::put_fixed;
use std::test::Fail;

#[test]
fn three_decimals(rt: HostRuntime) -> Result<(), Fail> {
    for (thousandths, text) in [
        (0, "0.000"),
        (7, "0.007"),
        (1500, "1.500"),
        (-1, "-0.001"),
        (-999, "-0.999"),
        (-1000, "-1.000"),
        (-20_310, "-20.310"),
        (i64::MIN, "-9223372036854775.808"),
        (i64::MAX, "9223372036854775.807"),
    ] {
        let mut out = Vec::new(rt.alloc());
        put_fixed(&mut out, thousandths)?;
        assert_eq!(rt; out.as_slice(), text.as_bytes(), "{text}");
    }
    Ok(())
}
