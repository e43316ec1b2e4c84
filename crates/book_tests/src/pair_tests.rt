// Two refusals that hold of one call: the upper one answers. Beside each call stands one in which what the upper refusal is for
// is mended, and the lower one answers. Of the pairs that are not here no call has both. Refusals are told by number, as the
// rules' list tells them.
use crate::prepared_book::{
    GOOD, NO_CLASS, STRANGE_PARTY, STRANGE_PARTY_AND_CLASS, all_refused, change, correction,
    ending, entry, opening, striking,
};
use book_rules::Call;
use std::alloc::Global;
use std::process::Abort;
use std::test::Fail;

const LARGE: u32 = 1_000_000_000;

// A call, its upper refusal; the call mended, the lower one.
type Pair = (Call, u8, Call, u8);

fn all_by_the_upper(
    rt: &impl Abort,
    heap: Global,
    places: usize,
    pairs: &[Pair],
) -> Result<(), Fail> {
    for (call, upper, mended, lower) in pairs {
        assert!(rt; upper < lower);
        all_refused(rt, heap, places, &[(*call, *upper), (*mended, *lower)])?;
    }
    Ok(())
}

#[test]
fn openings(rt: HostRuntime) -> Result<(), Fail> {
    let roomy: [Pair; 11] = [
        (
            opening(3, 0, STRANGE_PARTY),
            3,
            opening(2, 0, STRANGE_PARTY),
            4,
        ),
        (opening(3, 3, GOOD), 3, opening(2, 3, GOOD), 5),
        (opening(3, 0, NO_CLASS), 3, opening(2, 0, NO_CLASS), 6),
        (opening(2, 3, STRANGE_PARTY), 4, opening(2, 3, GOOD), 5),
        (
            opening(2, 0, STRANGE_PARTY_AND_CLASS),
            4,
            opening(2, 0, NO_CLASS),
            6,
        ),
        (opening(0, 1, STRANGE_PARTY), 4, opening(0, 1, GOOD), 7),
        (opening(1, 1, STRANGE_PARTY), 4, opening(1, 1, GOOD), 9),
        (opening(2, 3, NO_CLASS), 5, opening(2, 0, NO_CLASS), 6),
        (opening(0, 3, GOOD), 5, opening(0, 2, GOOD), 7),
        (opening(0, 1, NO_CLASS), 6, opening(0, 1, GOOD), 7),
        (opening(1, 1, NO_CLASS), 6, opening(1, 1, GOOD), 9),
    ];
    let full: [Pair; 6] = [
        (opening(3, 0, GOOD), 3, opening(2, 0, GOOD), 11),
        (opening(2, 0, STRANGE_PARTY), 4, opening(2, 0, GOOD), 11),
        (opening(2, 3, GOOD), 5, opening(2, 0, GOOD), 11),
        (opening(2, 0, NO_CLASS), 6, opening(2, 0, GOOD), 11),
        (opening(0, 2, GOOD), 7, opening(2, 2, GOOD), 11),
        (opening(1, 1, GOOD), 9, opening(1, 2, GOOD), 11),
    ];
    all_by_the_upper(&rt, rt.alloc(), 9, &roomy)?;
    all_by_the_upper(&rt, rt.alloc(), 2, &full)
}

#[test]
fn modifications(rt: HostRuntime) -> Result<(), Fail> {
    let roomy: [Pair; 12] = [
        (
            change(3, 2, STRANGE_PARTY),
            3,
            change(0, 2, STRANGE_PARTY),
            4,
        ),
        (change(3, 3, GOOD), 3, change(0, 3, GOOD), 5),
        (change(3, 2, NO_CLASS), 3, change(0, 2, NO_CLASS), 6),
        (change(3, 2, GOOD), 3, change(2, 2, GOOD), 8),
        (change(0, 3, STRANGE_PARTY), 4, change(0, 3, GOOD), 5),
        (
            change(0, 2, STRANGE_PARTY_AND_CLASS),
            4,
            change(0, 2, NO_CLASS),
            6,
        ),
        (change(2, 2, STRANGE_PARTY), 4, change(2, 2, GOOD), 8),
        (change(0, 1, STRANGE_PARTY), 4, change(0, 1, GOOD), 9),
        (change(0, 3, NO_CLASS), 5, change(0, 2, NO_CLASS), 6),
        (change(2, 3, GOOD), 5, change(2, 2, GOOD), 8),
        (change(2, 2, NO_CLASS), 6, change(2, 2, GOOD), 8),
        (change(0, 1, NO_CLASS), 6, change(0, 1, GOOD), 9),
    ];
    let full: [Pair; 6] = [
        (change(3, 2, GOOD), 3, change(0, 2, GOOD), 11),
        (change(0, 2, STRANGE_PARTY), 4, change(0, 2, GOOD), 11),
        (change(0, 3, GOOD), 5, change(0, 2, GOOD), 11),
        (change(0, 2, NO_CLASS), 6, change(0, 2, GOOD), 11),
        (change(2, 2, GOOD), 8, change(0, 2, GOOD), 11),
        (change(0, 1, GOOD), 9, change(0, 2, GOOD), 11),
    ];
    all_by_the_upper(&rt, rt.alloc(), 9, &roomy)?;
    all_by_the_upper(&rt, rt.alloc(), 2, &full)
}

#[test]
fn endings(rt: HostRuntime) -> Result<(), Fail> {
    let pairs: [Pair; 4] = [
        (ending(3, 4), 3, ending(0, 4), 5),
        (ending(3, 3), 3, ending(2, 3), 8),
        (ending(2, 4), 5, ending(2, 3), 8),
        (ending(1, 4), 5, ending(1, 3), 9),
    ];
    all_by_the_upper(&rt, rt.alloc(), 9, &pairs)
}

#[test]
fn corrections(rt: HostRuntime) -> Result<(), Fail> {
    let pairs: [Pair; 10] = [
        (
            correction(3, 1, STRANGE_PARTY),
            3,
            correction(0, 1, STRANGE_PARTY),
            4,
        ),
        (correction(3, 3, GOOD), 3, correction(0, 3, GOOD), 5),
        (correction(3, 1, NO_CLASS), 3, correction(0, 1, NO_CLASS), 6),
        (correction(3, 1, GOOD), 3, correction(2, 1, GOOD), 10),
        (
            correction(0, 3, STRANGE_PARTY),
            4,
            correction(0, 3, GOOD),
            5,
        ),
        (
            correction(0, 1, STRANGE_PARTY_AND_CLASS),
            4,
            correction(0, 1, NO_CLASS),
            6,
        ),
        (
            correction(0, 2, STRANGE_PARTY),
            4,
            correction(0, 2, GOOD),
            10,
        ),
        (correction(0, 3, NO_CLASS), 5, correction(0, 1, NO_CLASS), 6),
        (correction(0, 3, GOOD), 5, correction(0, 2, GOOD), 10),
        (correction(0, 2, NO_CLASS), 6, correction(0, 2, GOOD), 10),
    ];
    all_by_the_upper(&rt, rt.alloc(), 9, &pairs)
}

#[test]
fn entries(rt: HostRuntime) -> Result<(), Fail> {
    let roomy: [Pair; 10] = [
        (entry(3, 2, 4, 150), 3, entry(0, 2, 4, 150), 5),
        (entry(3, 3, 1, 150), 3, entry(0, 3, 1, 150), 12),
        (entry(3, 2, 1, LARGE), 3, entry(0, 2, 1, LARGE), 13),
        (entry(0, 3, 4, 150), 5, entry(0, 3, 1, 150), 12),
        (entry(0, 2, 4, LARGE), 5, entry(0, 2, 1, LARGE), 13),
        (entry(0, 1, 4, 50), 5, entry(0, 1, 2, 50), 15),
        (entry(0, 3, 1, LARGE), 12, entry(0, 2, 1, LARGE), 13),
        (entry(0, 1, 3, LARGE), 13, entry(0, 1, 3, 300), 14),
        (entry(0, 1, 2, LARGE), 13, entry(0, 1, 2, 201), 15),
        (entry(0, 1, 1, 201), 14, entry(0, 1, 0, 201), 15),
    ];
    let full: [Pair; 6] = [
        (entry(3, 2, 1, 5), 3, entry(0, 2, 1, 5), 16),
        (entry(0, 2, 4, 5), 5, entry(0, 2, 1, 5), 16),
        (entry(0, 3, 1, 5), 12, entry(0, 2, 1, 5), 16),
        (entry(0, 2, 1, LARGE), 13, entry(0, 2, 1, 5), 16),
        (entry(0, 1, 1, 100), 14, entry(0, 2, 1, 100), 16),
        (entry(0, 1, 2, 99), 15, entry(0, 1, 2, 150), 16),
    ];
    all_by_the_upper(&rt, rt.alloc(), 9, &roomy)?;
    all_by_the_upper(&rt, rt.alloc(), 2, &full)
}

#[test]
fn strikes(rt: HostRuntime) -> Result<(), Fail> {
    let pairs: [Pair; 6] = [
        (striking(3, 1, 4), 3, striking(0, 1, 4), 5),
        (striking(3, 3, 1), 3, striking(0, 3, 1), 12),
        (striking(3, 1, 1), 3, striking(2, 1, 1), 17),
        (striking(0, 3, 4), 5, striking(0, 3, 1), 12),
        (striking(0, 2, 4), 5, striking(0, 2, 1), 17),
        (striking(0, 3, 1), 12, striking(0, 2, 1), 17),
    ];
    all_by_the_upper(&rt, rt.alloc(), 9, &pairs)
}
