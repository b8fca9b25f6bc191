//! An update succeeds.

use crate::Cached;
use cfg_base::{Path, Step, Word};
use cfg_tree::Tree;
use std::alloc::Global;
use std::test::Fail;

fn interfaces(alloc: Global) -> Result<Path, Fail> {
    let step = Step {
        head: Word::short(alloc, b"interfaces")?,
        name: Word::empty(alloc),
    };
    Ok(Path::top(alloc).push(step)?)
}

#[test]
fn nothing_is_kept_of_no_statements(rt: HostRuntime) -> Result<(), Fail> {
    let tree = Tree::empty(rt.alloc());
    let mut cached = Cached::new(rt.alloc(), &tree)?;
    cached.update(rt.alloc(), &tree, &[interfaces(rt.alloc())?])?;
    let full = cached.full().ok_or("an expansion")?;
    assert_eq!(rt; full.count(), 0);
    Ok(())
}
