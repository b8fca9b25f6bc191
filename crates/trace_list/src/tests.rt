//! What is noted is counted, and is there as values where they are kept.

use crate::Trace;
use std::test::Fail;

#[test]
fn values_are_there_where_they_are_kept(rt: HostRuntime) -> Result<(), Fail> {
    let mut kept = Trace::new(rt.alloc(), true);
    kept.reserve(2)?;
    kept.note(5);
    kept.note(7);
    assert_eq!(rt; kept.len(), 2);
    let values: &[u32] = kept.values().ok_or("values")?;
    assert_eq!(rt; values, [5, 7].as_slice());
    Ok(())
}

#[test]
fn no_value_is_there_where_none_is_kept(rt: HostRuntime) -> Result<(), Fail> {
    let mut counted = Trace::new(rt.alloc(), false);
    counted.reserve(2)?;
    counted.note(5_u32);
    counted.note(7);
    assert_eq!(rt; counted.len(), 2);
    assert!(rt; counted.values().is_none());
    Ok(())
}
