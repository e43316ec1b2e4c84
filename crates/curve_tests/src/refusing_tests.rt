// Each refusal alone, and before those below it.
use crate::small_book::{metered, small_book};
use curves::{curve, factor};
use factors::Thresholds;
use refusals::Refusal;
use sources::Flat;
use std::test::Fail;

// Places, site, dial and half-hours covered; 144 are drawn.
const CURVES: [(usize, u16, u8, usize, Refusal); 13] = [
    (143, 4, 0, 143, Refusal::BufferTooShort),
    (143, 0, 1, 144, Refusal::BufferTooShort),
    (0, 0, 1, 144, Refusal::BufferTooShort),
    (144, 4, 0, 143, Refusal::UnknownSite),
    (144, 4, 1, 144, Refusal::UnknownSite),
    (145, u16::MAX, 1, 144, Refusal::UnknownSite),
    (144, 0, 3, 143, Refusal::UnknownDial),
    (144, 0, 0, 144, Refusal::UnknownDial),
    (144, 0, 3, 144, Refusal::UnknownDial),
    (145, 0, 255, 144, Refusal::UnknownDial),
    (144, 0, 1, 143, Refusal::CoverageDiffers),
    (145, 0, 1, 145, Refusal::CoverageDiffers),
    (144, 1, 2, 0, Refusal::CoverageDiffers),
];

// Site, dial, day and half-hours covered. Dial 2 of site 3 has no index, and so no span.
const FACTORS: [(u16, u8, u8, usize, Refusal); 12] = [
    (4, 0, 3, 143, Refusal::UnknownSite),
    (4, 1, 1, 144, Refusal::UnknownSite),
    (u16::MAX, 1, 1, 144, Refusal::UnknownSite),
    (0, 0, 3, 143, Refusal::DayOutOfRange),
    (0, 1, 3, 144, Refusal::DayOutOfRange),
    (3, 2, 255, 144, Refusal::DayOutOfRange),
    (0, 3, 1, 143, Refusal::UnknownDial),
    (0, 0, 1, 144, Refusal::UnknownDial),
    (3, 3, 2, 144, Refusal::UnknownDial),
    (0, 1, 1, 143, Refusal::CoverageDiffers),
    (0, 1, 1, 145, Refusal::CoverageDiffers),
    (3, 2, 0, 0, Refusal::CoverageDiffers),
];

#[test]
fn curves_refused(rt: HostRuntime) -> Result<(), Fail> {
    let book = small_book(&rt, rt.alloc())?;
    let thresholds = Thresholds::of(10_000, &[0; 8])?;
    for (places, site, dial, covered, refusal) in CURVES {
        let source = Flat::over(covered);
        let of = metered(&book, site, dial, &source, &thresholds);
        let mut buffer = [77; 145];
        let figures = buffer.get_mut(..places).ok_or("too many places")?;
        assert_eq!(rt; curve(&of, figures), Err(refusal));
        assert_eq!(rt; buffer, [77; 145], "changed by a refused curve");
    }
    Ok(())
}

#[test]
fn factors_refused(rt: HostRuntime) -> Result<(), Fail> {
    let book = small_book(&rt, rt.alloc())?;
    let thresholds = Thresholds::of(10_000, &[0; 8])?;
    for (site, dial, day, covered, refusal) in FACTORS {
        let source = Flat::over(covered);
        let of = metered(&book, site, dial, &source, &thresholds);
        assert_eq!(rt; factor(&of, day), Err(refusal));
    }
    Ok(())
}
