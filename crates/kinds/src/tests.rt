//! The kinds, at the corners of what they may be asked.
use crate::ring::Ring;
use automaton::{Again, Automaton, Pair, PartsRefusal, Settles};
use std::process::Abort;
use std::test::Fail;
use tables::{Draft, LenderRefusal, Table};

/// Past its states and letters an automaton has nothing.
fn nothing_past<A: Automaton>(rt: &impl Abort, x: &A) {
    let n = x.states();
    for s in [n, u32::MAX] {
        assert!(rt; !x.is_start(s) && !x.is_good(s));
        assert_eq!(rt; x.next(s, 0, 0), None);
        assert_eq!(rt; x.next(0, 0, s), None);
    }
    assert_eq!(rt; x.next(0, 1 << x.signals(), 0), None);
    assert_eq!(rt; x.next(0, u32::MAX, 0), None);
}

fn ring(stations: u32, signals: u32) -> Result<Ring, Fail> {
    Ring::new(stations, signals).ok_or_else(|| Fail::new("no ring"))
}

fn draft(states: u32, signals: u32) -> Result<Draft, Fail> {
    Draft::new(states, signals).ok_or_else(|| Fail::new("no draft"))
}

/// Which refusal, if any, keeps two parts from being paired.
fn unpaired<A: Automaton, B: Automaton>(a: &A, b: &B) -> Option<PartsRefusal> {
    Pair::new(a, b).err()
}

/// What keeps a pair asks nothing of the pair's parts.
#[derive(Drop)]
struct Kept<'a, 'b, A, B> {
    pair: Pair<'a, 'b, A, B>,
}

/// A pair of a pair is kept as any pair is.
#[derive(Drop)]
struct KeptTwice<'a, 'b, 'c, 'd, A, B, C> {
    pair: Pair<'c, 'd, Pair<'a, 'b, A, B>, C>,
}

#[test]
fn again_and_settles(rt: HostRuntime) -> Result<(), Fail> {
    let again = Again::new(3, 4)?;
    nothing_past(&rt, &again);
    assert_eq!(rt; again.next(0, 8, 0), Some(1));
    assert_eq!(rt; again.next(1, 7, 0), Some(0));
    assert_eq!(rt; again.next(1, 7, 1), None);
    let settles = Settles::new(0, 1)?;
    nothing_past(&rt, &settles);
    assert_eq!(rt; settles.next(0, 1, 0), Some(0));
    assert_eq!(rt; settles.next(0, 1, 1), None);
    assert_eq!(rt; settles.next(0, 0, 1), Some(1));
    assert_eq!(rt; settles.next(1, 0, 0), Some(1));
    assert_eq!(rt; settles.next(1, 1, 0), None);
    assert!(rt;
        Again::new(1, 1).is_err() && Settles::new(0, 0).is_err() && Again::new(0, 5).is_err()
    );
    Ok(())
}

#[test]
fn rings_pair_up_to_the_limit(rt: HostRuntime) -> Result<(), Fail> {
    let one = ring(1, 0)?;
    let none = ring(0, 0)?;
    let large = ring(32_769, 0)?;
    let other = ring(32_769, 1)?;
    nothing_past(&rt, &one);
    nothing_past(&rt, &none);
    nothing_past(&rt, &large);
    assert_eq!(rt; large.next(32_768, 0, 0), Some(0));
    assert_eq!(rt; large.next(0, 0, 1), Some(1));
    assert_eq!(rt; unpaired(&one, &large), Some(PartsRefusal::TooManyStates));
    assert_eq!(rt; unpaired(&one, &other), Some(PartsRefusal::SignalsDiffer));
    assert_eq!(rt; unpaired(&none, &large), None);
    assert!(rt; Ring::new(65_537, 0).is_none() && Ring::new(0, 5).is_none());
    Ok(())
}

#[test]
fn pairs_of_many_states(rt: HostRuntime) -> Result<(), Fail> {
    let a = ring(128, 4)?;
    let b = ring(256, 4)?;
    let pair = Pair::new(&a, &b)?;
    assert_eq!(rt; pair.states(), 65_536);
    nothing_past(&rt, &pair);
    // from (0, 0, 0) to (1, 1, 0), and from (127, 255, 0), which is good in the first part, to (0, 0, 1)
    assert_eq!(rt; pair.next(0, 15, 0), Some(514));
    assert_eq!(rt; pair.next(0, 15, 515), None);
    assert_eq!(rt; pair.next(65_534, 15, 0), Some(1));
    assert!(rt; pair.is_start(0) && !pair.is_start(1) && pair.is_good(511) && !pair.is_good(510));
    Ok(())
}

#[test]
fn pairs_of_pairs(rt: HostRuntime) -> Result<(), Fail> {
    let again = Again::new(0, 1)?;
    let settles = Settles::new(0, 1)?;
    let pair = Pair::new(&again, &settles)?;
    let nested = Pair::new(&pair, &again)?;
    assert_eq!(rt; nested.states(), 32);
    nothing_past(&rt, &nested);
    // the letter 1 leads all three on: (0, 0, 0) to (1, 0, 0), and again to 1
    assert_eq!(rt; nested.next(0, 1, 0), Some(18));
    Ok(())
}

#[test]
fn tables_good_in_turn(rt: HostRuntime) -> Result<(), Fail> {
    let mut cells_a = [7; 4_097];
    let mut cells_b = [0; 4_096];
    let mut a = Table::blank(&mut cells_a);
    let mut b = Table::blank(&mut cells_b);
    nothing_past(&rt, &a);
    let mut first = draft(2, 0)?;
    first.add_start(0);
    first.add_steps(0, 3, 1);
    first.add_steps(1, 1, 0);
    first.add_steps(2, 1, 0);
    first.add_good(0);
    a.fill(&first)?;
    let mut second = draft(2, 0)?;
    second.add_start(0);
    second.add_start(2);
    second.add_steps(0, 1, 1);
    second.add_steps(1, 1, 0);
    second.add_good(1);
    b.fill(&second)?;
    nothing_past(&rt, &a);
    nothing_past(&rt, &b);
    // never good at one moment, and yet good in turn: 0, 7, 0, 7 and so on
    let pair = Pair::new(&a, &b)?;
    assert_eq!(rt; pair.next(0, 0, 0), Some(7));
    assert_eq!(rt; pair.next(7, 0, 0), Some(0));
    assert!(rt; pair.is_good(7) && !pair.is_good(0));
    Ok(())
}

#[test]
fn tables_want_cells(rt: HostRuntime) -> Result<(), Fail> {
    let mut cells = [5; 4_095];
    let mut table = Table::blank(&mut cells);
    let full = draft(64, 4)?;
    assert_eq!(rt; table.fill(&full), Err(LenderRefusal::TooFewCells));
    assert_eq!(rt; table.states(), 0);
    assert!(rt; cells[0] == 5);
    assert!(rt; Draft::new(65, 0).is_none() && Draft::new(0, 5).is_none());
    Ok(())
}

#[test]
fn pairs_are_kept(rt: HostRuntime) -> Result<(), Fail> {
    let a = ring(2, 1)?;
    let b = ring(3, 1)?;
    let kept = Kept {
        pair: Pair::new(&a, &b)?,
    };
    assert_eq!(rt; kept.pair.states(), 12);
    let twice = KeptTwice {
        pair: Pair::new(&kept.pair, &a)?,
    };
    assert_eq!(rt; twice.pair.states(), 48);
    Ok(())
}
