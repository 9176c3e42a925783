// The number that a sequence number stands for near a base.
use link_base::{SnSize, near};

// The greatest base.
const TOP: u64 = 1 << 62;

#[test]
fn deduces_short_numbers(rt: HostRuntime) {
    for (sn, base, want) in [
        (0, 4095, Some(4096)),
        (4095, 0, None),
        (0, 0, Some(0)),
        (2047, 0, Some(2047)),
        (2048, 0, None),
        (0, 2048, Some(0)),
        (0, 2049, Some(4096)),
        (2048, 1, Some(2048)),
        (0, TOP, Some(TOP)),
    ] {
        assert!(rt; sn < 4096 && base <= TOP);
        assert_eq!(rt; near(sn, base, SnSize::S12), want, "sn {sn} at {base}");
    }
}

#[test]
fn deduces_long_numbers(rt: HostRuntime) {
    for (sn, base, want) in [
        (0, 262_143, Some(262_144)),
        (262_143, 0, None),
        (131_071, 0, Some(131_071)),
        (262_143, 262_144, Some(262_143)),
        (4096, TOP, Some(TOP + 4096)),
    ] {
        assert!(rt; sn < 262_144 && base <= TOP);
        assert_eq!(rt; near(sn, base, SnSize::S18), want, "sn {sn} at {base}");
    }
}
