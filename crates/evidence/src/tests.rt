//! Strips that are evidence, cut short and with words changed.
use crate::rechecking::recheck;
use automaton::{Again, Automaton, Pair, Settles};
use std::process::Abort;
use std::test::Fail;

const MOST: u32 = u32::MAX;

/// The first words of a strip are evidence with more words behind or none, and neither cut short nor with one of them changed for another.
fn just<A: Automaton>(
    rt: &impl Abort,
    automaton: &A,
    strip: [u32; 12],
    words: usize,
    others: &[u32],
) {
    assert!(rt; words <= 12);
    assert!(rt; recheck(automaton, &strip));
    assert!(rt; recheck(automaton, &strip[0..words]));
    for place in 0..words {
        assert!(rt; !recheck(automaton, &strip[0..place]));
        for other in others {
            let mut changed = strip;
            changed[place] = *other;
            assert!(rt; *other == strip[place] || !recheck(automaton, &changed));
        }
    }
}

#[test]
fn lassos(rt: HostRuntime) -> Result<(), Fail> {
    let again = Again::new(0, 1)?;
    // the letter 1 leads from the start 0 to the good state 1, and round
    let lasso = [1, 1, 1, 0, 1, 1, 1, 1, 7, MOST, 0, 0];
    just(&rt, &again, lasso, 8, &[0, 1, 2, MOST]);
    assert!(rt; !recheck(&again, &[1, MOST, MOST, 0, 1, 1, 1, 1]));
    // the last step is one, but does not close the loop
    assert!(rt; !recheck(&again, &[1, 1, 1, 0, 1, 1, 0, 0]));
    // where a word is accepted there is no ranking: the good state 1 leads to itself
    assert!(rt; !recheck(&again, &[2, 2, 0, 0, 0]));
    Ok(())
}

#[test]
fn rankings(rt: HostRuntime) -> Result<(), Fail> {
    let again = Again::new(0, 1)?;
    let settles = Settles::new(0, 1)?;
    let pair = Pair::new(&again, &settles)?;
    // the good state 3 leads to 2 only, and 6 and 7 cannot be reached
    let ranking = [2, 8, 0, 1, 1, 0, 1, 1, 1, MOST, MOST, 7];
    just(&rt, &pair, ranking, 11, &[0, MOST]);
    assert!(rt; !recheck(&pair, &[2, 9, 0, 1, 1, 0, 1, 1, 1, MOST, MOST, MOST]));
    assert!(rt; !recheck(&pair, &[2, 8, 1, 1, 1, 0, 1, 1, 1, MOST, MOST]));
    // the good state is left with an equal rank
    assert!(rt; !recheck(&pair, &[2, 8, 0, 1, 1, 1, 1, 1, 1, MOST, MOST]));
    Ok(())
}
