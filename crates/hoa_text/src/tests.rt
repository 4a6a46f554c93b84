//! One text that is read, one for each fault, and names.
use crate::differing::difference;
use crate::matching::match_names;
use crate::naming::name;
use crate::reading::read;
use crate::refusal::{MatchRefusal, NameRefusal, ReadRefusal};
use automaton::Automaton;
use tables::Table;

/// The number and the place of a text's fault, or 0 and 0.
fn fault(bytes: &[u8]) -> (u8, usize) {
    let mut cells = [0; 4_096];
    let mut table = Table::blank(&mut cells);
    match read(&mut table, bytes) {
        Ok(()) => (0, 0),
        Err(ReadRefusal::Lender(refusal)) => (u8::from(refusal), 0),
        Err(ReadRefusal::Text(fault)) => (u8::from(fault.refusal), fault.place),
    }
}

#[test]
fn a_text_is_read(rt: HostRuntime) {
    let text =
        b"HOA: v1 States: 3 Start: 0 AP: 1 \"meas\" Acceptance: 1 Inf(0) --BODY-- State: 0 {0} [!0] 1 State: 1 2 State: 2 [0] 0 --END--";
    let mut cells = [9; 4_097];
    let mut table = Table::blank(&mut cells);
    assert!(rt; read(&mut table, text).is_ok());
    assert_eq!(rt; table.states(), 3);
    assert_eq!(rt; table.signals(), 1);
    assert!(rt; table.is_start(0) && !table.is_start(1) && table.is_good(0) && !table.is_good(2));
    assert_eq!(rt; table.next(0, 0, 0), Some(1));
    assert_eq!(rt; table.next(0, 1, 0), None);
    assert_eq!(rt; table.next(1, 0, 0), Some(2));
    assert_eq!(rt; table.next(1, 1, 0), Some(2));
    assert_eq!(rt; table.next(2, 1, 0), Some(0));
    assert!(rt; cells[9] == 0 && cells[4_095] == 0 && cells[4_096] == 9);
}

#[test]
fn faults_come_first_to_last(rt: HostRuntime) {
    assert_eq!(rt; fault(b""), (13, 0));
    assert_eq!(rt; fault(b"HOA: v2"), (13, 5));
    assert_eq!(rt; fault(b"HOA: v1 States: 65 $"), (14, 16));
    assert_eq!(rt; fault(b"HOA: v1 States: 0 Start: 0"), (15, 25));
    assert_eq!(rt; fault(b"HOA: v1 States: 1 AP: 2 \"a\" \"a\""), (16, 28));
    assert_eq!(rt; fault(b"HOA: v1 States: 007"), (12, 16));
    assert_eq!(rt; fault(b"HOA: v1 States: 1 AP: 0 $"), (11, 24));
}

/// The number and the place of what two texts do not match for, or 0 and 0; the second text's places follow the first's 1,000.
fn mismatch(first: &[u8], second: &[u8]) -> (u8, usize) {
    match match_names(first, second) {
        Ok(()) => (0, 0),
        Err(MatchRefusal::First(fault)) => (u8::from(fault.refusal), fault.place),
        Err(MatchRefusal::Second(fault)) => {
            (u8::from(fault.refusal), fault.place.saturating_add(1_000))
        }
        Err(MatchRefusal::Parts(refusal)) => (u8::from(refusal), 0),
    }
}

/// The length and the first byte of a name, or 0 and the number of its refusal.
fn named(bytes: &[u8], i: u32) -> (usize, u8) {
    match name(bytes, i) {
        Ok(w) => (w.len(), w.first().copied().unwrap_or(0)),
        Err(NameRefusal::Text(fault)) => (0, u8::from(fault.refusal)),
        Err(NameRefusal::Parts(refusal)) => (0, u8::from(refusal)),
    }
}

#[test]
fn names_are_handed_out_and_matched(rt: HostRuntime) {
    let ab = b"HOA: v1 States: 0 AP: 2 \"a\" \"bc\" Acceptance: 1 Inf(0) --BODY-- --END--";
    let ba = b"HOA: v1 States: 0 AP: 2 \"bc\" \"a\" Acceptance: 1 Inf(0) --BODY-- --END--";
    let a = b"HOA: v1 States: 0 AP: 1 \"a\" Acceptance: 1 Inf(0) --BODY-- --END--";
    let late = b"HOA: v1 States: 0 AP: 1 \"a\" Acceptance: 1 Inf(0) --BODY-- --END-- 00";
    assert_eq!(rt; named(ab, 0), (1, b'a'));
    assert_eq!(rt; named(ab, 1), (2, b'b'));
    assert_eq!(rt; named(ab, 2), (0, 34));
    assert_eq!(rt; named(ab, u32::MAX), (0, 34));
    assert_eq!(rt; named(late, 7), (0, 12));
    assert_eq!(rt; mismatch(ab, ab), (0, 0));
    assert_eq!(rt; mismatch(ab, ba), (33, 0));
    assert_eq!(rt; mismatch(ab, a), (31, 0));
    assert_eq!(rt; mismatch(late, b""), (12, 66));
    assert_eq!(rt; mismatch(ab, b""), (13, 1_000));
    assert_eq!(rt; difference(b"", b""), None);
    assert_eq!(rt; difference(b"abc", b"abd"), Some(2));
    assert_eq!(rt; difference(b"ab", b"abd"), Some(2));
}
