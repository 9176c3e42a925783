// A set of places of bytes.
use byte_spans::Spans;
use link_base::LONGEST_RLC_SDU;
use std::alloc::Global;
use std::process::Abort;
use std::test::Fail;

#[test]
fn keeps_a_set_of_places(rt: HostRuntime) -> Result<(), Fail> {
    let alloc = rt.alloc();
    let mut spans = Spans::new(alloc)?;
    assert_eq!(rt; spans.first(), None);
    assert_eq!(rt; spans.add(3, 7), Ok(true));
    assert_eq!(rt; spans.add(3, 7), Ok(false));
    assert_eq!(rt; spans.add(0, 3), Ok(true));
    assert!(rt; spans.covers(0, 7));
    assert_eq!(rt; spans.next_gap(0, 12), Some((7, 12)));
    assert_eq!(rt; spans.next_gap(0, 7), None);
    let copy = spans.copy()?;
    assert_eq!(rt; copy.end(), 7);
    assert_eq!(rt; spans.remove(2, 4), Ok(()));
    assert_eq!(rt; spans.first(), Some((0, 2)));
    assert_eq!(rt; copy.first(), Some((0, 7)));
    spans.only(1, 2);
    assert_eq!(rt; spans.end(), 2);
    assert_eq!(rt; spans.add(LONGEST_RLC_SDU - 1, LONGEST_RLC_SDU), Ok(true));
    assert_eq!(rt; spans.next_gap(2, u32::MAX), Some((2, 9_004)));
    assert_eq!(rt; spans.next_gap(9_004, u32::MAX), Some((9_005, u32::MAX)));
    Ok(())
}

// The set of these runs.
fn set_of(rt: &impl Abort, alloc: Global, runs: &[(u32, u32)]) -> Result<Spans, Fail> {
    let mut spans = Spans::new(alloc)?;
    for (from, to) in runs {
        assert!(rt; from < to && *to <= LONGEST_RLC_SDU);
        spans.add(*from, *to)?;
    }
    Ok(spans)
}

// The set has these runs and no other place.
fn expect_runs(rt: &impl Abort, spans: &Spans, runs: &[(u32, u32)]) {
    let mut from = 0;
    for (start, stop) in runs {
        let gap = (from < *start).then_some((from, *start));
        assert_eq!(rt; spans.next_gap(from, *stop), gap);
        from = *stop;
    }
    assert_eq!(rt; spans.end(), from);
    assert_eq!(rt; spans.is_empty(), runs.is_empty());
}

#[test]
fn joins_runs(rt: HostRuntime) -> Result<(), Fail> {
    let rows: [(&[(u32, u32)], (u32, u32), &[(u32, u32)]); 9] = [
        (&[], (4, 5), &[(4, 5)]),
        (&[(5, 6)], (0, 1), &[(0, 1), (5, 6)]),
        (&[(0, 2), (8, 9)], (4, 5), &[(0, 2), (4, 5), (8, 9)]),
        (&[(2, 4), (6, 8)], (4, 6), &[(2, 8)]),
        (&[(2, 4), (6, 8)], (5, 6), &[(2, 4), (5, 8)]),
        (&[(2, 4), (6, 8)], (8, 9), &[(2, 4), (6, 9)]),
        (&[(0, 3), (5, 8), (10, 12)], (2, 11), &[(0, 12)]),
        (
            &[(1, 2), (3, 4), (5, 6), (7, 8), (9_000, 9_005)],
            (0, 20),
            &[(0, 20), (9_000, 9_005)],
        ),
        (
            &[(1, 2), (3, 4), (5, 6), (9_004, 9_005)],
            (0, 9_005),
            &[(0, 9_005)],
        ),
    ];
    for (runs, (from, to), want) in rows {
        let mut spans = set_of(&rt, rt.alloc(), runs)?;
        assert!(rt; from < to && to <= LONGEST_RLC_SDU);
        assert_eq!(rt; spans.add(from, to), Ok(true));
        expect_runs(&rt, &spans, want);
    }
    Ok(())
}

#[test]
fn cuts_runs(rt: HostRuntime) -> Result<(), Fail> {
    let rows: [(&[(u32, u32)], (u32, u32), &[(u32, u32)]); 9] = [
        (&[(0, 10)], (3, 5), &[(0, 3), (5, 10)]),
        (&[(2, 8)], (2, 4), &[(4, 8)]),
        (&[(2, 8)], (6, 9), &[(2, 6)]),
        (&[(2, 8)], (0, 9_005), &[]),
        (&[(2, 4), (9, 10)], (4, 9), &[(2, 4), (9, 10)]),
        (&[(0, 3), (5, 8), (10, 12)], (2, 11), &[(0, 2), (11, 12)]),
        (&[(0, 3), (5, 8), (10, 12)], (3, 10), &[(0, 3), (10, 12)]),
        (
            &[(0, 3), (5, 8), (10, 12)],
            (6, 7),
            &[(0, 3), (5, 6), (7, 8), (10, 12)],
        ),
        (
            &[(0, 3), (9_003, 9_005)],
            (9_004, 9_005),
            &[(0, 3), (9_003, 9_004)],
        ),
    ];
    for (runs, (from, to), want) in rows {
        let mut spans = set_of(&rt, rt.alloc(), runs)?;
        assert!(rt; from < to && to <= LONGEST_RLC_SDU);
        assert_eq!(rt; spans.remove(from, to), Ok(()));
        expect_runs(&rt, &spans, want);
    }
    Ok(())
}
