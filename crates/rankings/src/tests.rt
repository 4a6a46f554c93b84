//! Small automata with a lasso and with a ranking, over strips and work lists one word short, just long enough, and longer.
use crate::deciding::least_ranking;
use automaton::{Again, Pair, Settles};
use evidence::Verdict;
use std::test::Fail;
use tables::LenderRefusal;

const MOST: u32 = u32::MAX;

#[test]
fn lasso(rt: HostRuntime) -> Result<(), Fail> {
    let again = Again::new(0, 1)?;
    let mut strip = [7; 13];
    let mut work = [7; 17];
    assert_eq!(rt;
        least_ranking(&again, &mut strip[0..11], &mut work[0..15]),
        Err(LenderRefusal::ShortStrip)
    );
    assert_eq!(rt;
        least_ranking(&again, &mut strip, &mut work[0..15]),
        Err(LenderRefusal::ShortWork)
    );
    assert_eq!(rt; strip, [7; 13]);
    assert_eq!(rt; work, [7; 17]);
    assert_eq!(rt;
        least_ranking(&again, &mut strip[0..12], &mut work[0..16]),
        Ok(Verdict::Lasso)
    );
    assert_eq!(rt; strip, [0, 0, 0, 0, 0, 0, 0, 0, 0, 0, 0, 0, 7]);
    assert_eq!(rt; work, [0, 0, 0, 0, 0, 0, 0, 0, 0, 0, 0, 0, 0, 0, 0, 0, 7]);
    Ok(())
}

#[test]
fn ranking(rt: HostRuntime) -> Result<(), Fail> {
    let again = Again::new(0, 1)?;
    let settles = Settles::new(0, 1)?;
    let pair = Pair::new(&again, &settles)?;
    let mut strip = [7; 40];
    let mut work = [7; 70];
    assert_eq!(rt;
        least_ranking(&pair, &mut strip, &mut work),
        Ok(Verdict::Ranking)
    );
    // the good state 3 leads to 2 only, and 6 and 7 cannot be reached
    assert!(rt; strip[0..11] == [2, 8, 0, 1, 1, 0, 1, 1, 1, MOST, MOST]);
    assert!(rt; strip[11..40] == [0; 29]);
    assert!(rt; work == [0; 70]);
    Ok(())
}
