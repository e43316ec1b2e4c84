// Each refusal alone, and before those below it, in a book whose places are all taken.
use crate::prepared_book::{
    GOOD, NO_CLASS, NO_PARTY, NO_POWER, all_refused, change, correction, ending, entry, opening,
    striking,
};
use book_rules::Call;
use std::test::Fail;

#[test]
fn openings(rt: HostRuntime) -> Result<(), Fail> {
    let cases: [(Call, u8); 13] = [
        (opening(3, 9, NO_PARTY), 3),
        (opening(u16::MAX, 0, GOOD), 3),
        (opening(0, 9, NO_PARTY), 4),
        (opening(0, 3, NO_CLASS), 5),
        (opening(0, 0, NO_CLASS), 6),
        (opening(0, 0, NO_POWER), 6),
        (opening(0, 0, GOOD), 7),
        (opening(0, 1, GOOD), 7),
        (opening(0, 2, GOOD), 7),
        (opening(1, 0, GOOD), 9),
        (opening(1, 1, GOOD), 9),
        (opening(1, 2, GOOD), 11),
        (opening(2, 0, GOOD), 11),
    ];
    all_refused(&rt, rt.alloc(), 2, &cases)
}

#[test]
fn modifications(rt: HostRuntime) -> Result<(), Fail> {
    let cases: [(Call, u8); 9] = [
        (change(3, 9, NO_PARTY), 3),
        (change(2, 9, NO_PARTY), 4),
        (change(2, 3, NO_CLASS), 5),
        (change(2, 0, NO_POWER), 6),
        (change(2, 0, GOOD), 8),
        (change(1, 0, GOOD), 8),
        (change(0, 0, GOOD), 9),
        (change(0, 1, GOOD), 9),
        (change(0, 2, GOOD), 11),
    ];
    all_refused(&rt, rt.alloc(), 2, &cases)
}

#[test]
fn endings(rt: HostRuntime) -> Result<(), Fail> {
    let cases: [(Call, u8); 8] = [
        (ending(3, 9), 3),
        (ending(2, 4), 5),
        (ending(2, 3), 8),
        (ending(0, 0), 9),
        (ending(0, 1), 9),
        (ending(1, 0), 9),
        (ending(1, 2), 9),
        (ending(1, 3), 9),
    ];
    all_refused(&rt, rt.alloc(), 2, &cases)
}

#[test]
fn corrections(rt: HostRuntime) -> Result<(), Fail> {
    let cases: [(Call, u8); 7] = [
        (correction(3, 9, NO_PARTY), 3),
        (correction(2, 9, NO_PARTY), 4),
        (correction(2, 3, NO_CLASS), 5),
        (correction(2, 0, NO_POWER), 6),
        (correction(0, 2, GOOD), 10),
        (correction(1, 2, GOOD), 10),
        (correction(2, 0, GOOD), 10),
    ];
    all_refused(&rt, rt.alloc(), 2, &cases)
}

#[test]
fn entries(rt: HostRuntime) -> Result<(), Fail> {
    let large = 1_000_000_000;
    let cases: [(Call, u8); 12] = [
        (entry(3, 3, 9, large), 3),
        (entry(0, 3, 4, large), 5),
        (entry(0, 0, 1, large), 12),
        (entry(0, 3, 1, large), 12),
        (entry(0, 1, 1, large), 13),
        (entry(0, 1, 1, 201), 14),
        (entry(0, 1, 1, 100), 14),
        (entry(0, 1, 2, 99), 15),
        (entry(0, 1, 2, 201), 15),
        (entry(0, 1, 0, 101), 15),
        (entry(0, 1, 2, 200), 16),
        (entry(2, 2, 0, 0), 16),
    ];
    all_refused(&rt, rt.alloc(), 2, &cases)
}

#[test]
fn strikes(rt: HostRuntime) -> Result<(), Fail> {
    let cases: [(Call, u8); 4] = [
        (striking(3, 3, 9), 3),
        (striking(0, 3, 4), 5),
        (striking(0, 3, 1), 12),
        (striking(0, 2, 1), 17),
    ];
    all_refused(&rt, rt.alloc(), 2, &cases)
}
