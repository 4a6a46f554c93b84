//! A sheet that is read and rechecked beside a rule.
use crate::sheet::Sheet;
use automaton::{Again, PartsRefusal, Settles};
use std::test::Fail;
use tables::Table;

#[test]
fn strips_are_rechecked(rt: HostRuntime) -> Result<(), Fail> {
    let text =
        b"HOA: v1 States: 1 Start: 0 AP: 1 \"a\" Acceptance: 1 Inf(0) --BODY-- State: 0 {0} [t] 0 --END--";
    let mut cells = [7; 4_097];
    let mut table = Table::blank(&mut cells);
    let mut sheet = Sheet::over(&mut table);
    assert!(rt; sheet.read(b"HOA: v1").is_err());
    assert!(rt; sheet.read(text).is_ok());
    assert_eq!(rt; sheet.count(), 0);
    let rule = Settles::new(0, 1)?;
    let lasso = [1, 1, 2, 0, 0, 3, 0, 2, 0, 3];
    assert_eq!(rt; sheet.recheck(&rule, &lasso), Ok(true));
    assert_eq!(rt; sheet.recheck(&rule, &lasso[0..9]), Ok(false));
    assert_eq!(rt; sheet.recheck(&rule, &[2, 4, 0, 0, 0, 0, 0]), Ok(false));
    let wide = Again::new(0, 2)?;
    assert_eq!(rt;
        sheet.recheck(&wide, &lasso),
        Err(PartsRefusal::SignalsDiffer)
    );
    Ok(())
}
