//! Levels, and brightnesses that a person can compare with them.
use std::test::Fail;
use threshold_map::{GREATEST_SAMPLE, Level};

#[test]
fn gray_samples(rt: HostRuntime) -> Result<(), Fail> {
    let table = [
        (500000, 127, 255, true),
        (500000, 128, 255, false),
        (500000, 32767, 65535, true),
        (500000, 32768, 65535, false),
        (500000, 1, 2, true),
        (0, 0, 1, true),
        (0, 1, 65535, false),
        (1000000, 65535, 65535, true),
        (1000000, 1, 1, true),
        (1000000, 2, 1, false),
        (1000000, u32::MAX, 65535, false),
        (333333, 1, 3, false),
        (333334, 1, 3, true),
    ];
    for (micro, v, maxval, black) in table {
        assert!(rt; micro <= 1000000 && 1 <= maxval && maxval <= 65535);
        let level = Level::from_micro(micro);
        assert_eq!(rt; level.gray(v, maxval), black, "{v} of {maxval} at {micro}");
    }
    Ok(())
}

#[test]
fn colors(rt: HostRuntime) -> Result<(), Fail> {
    let table = [
        (500000, (0, 0, 0), true),
        (500000, (255, 255, 255), false),
        (500000, (255, 0, 0), true),
        (500000, (0, 255, 0), true),
        (500000, (0, 0, 255), true),
        (500000, (0, 255, 255), false),
        (500000, (127, 127, 128), true),
        (500000, (128, 127, 128), false),
        (333333, (0, 0, 255), false),
        (333334, (0, 0, 255), true),
        (0, (0, 0, 1), false),
        (1000000, (255, 255, 255), true),
    ];
    for (micro, (r, g, b), black) in table {
        assert!(rt; micro <= 1000000);
        let level = Level::from_micro(micro);
        assert_eq!(rt; level.rgb(r, g, b), black, "{r}, {g}, {b} at {micro}");
    }
    Ok(())
}

#[test]
fn color_samples(rt: HostRuntime) -> Result<(), Fail> {
    // Sums of 98302 and 98303 are on both sides of half of three times 65535.
    let table = [
        (500000, (32768, 32767, 32767), 65535, true),
        (500000, (32768, 32768, 32767), 65535, false),
        (500000, (1, 1, 1), 2, true),
        (500000, (0, 4, 0), 2, false),
        (500000, (3, 0, 0), 2, true),
        (0, (0, 0, 0), 1, true),
        (0, (0, 1, 0), 65535, false),
        (1000000, (65535, 65535, 65535), 65535, true),
        (1000000, (0, 196606, 0), 65535, false),
        (1000000, (1 << 30, 1 << 30, 1 << 30), 65535, false),
        (333333, (0, 1, 0), 1, false),
        (333334, (0, 1, 0), 1, true),
    ];
    for (micro, (r, g, b), maxval, black) in table {
        assert!(rt; micro <= 1000000 && 1 <= maxval && maxval <= 65535);
        assert!(rt; r <= GREATEST_SAMPLE && g <= GREATEST_SAMPLE && b <= GREATEST_SAMPLE);
        let level = Level::from_micro(micro);
        assert_eq!(rt;
            level.color(r, g, b, maxval),
            black,
            "{r}, {g}, {b} of {maxval} at {micro}"
        );
    }
    Ok(())
}
