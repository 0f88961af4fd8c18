//! Calls that take memory: each answers something else than want of it.

ghost use Rattle.std.specs.Prelude.{◌≡◌, ◌≤◌, IfSome, length, true};
ghost use Rattle.arr_elab.specs.Recording.{is_recording};

use arr_demo::demo_script;
use arr_elab::{Step, elaborate};
use arr_num::Elem;
use arr_ops::{Plan, list_formed};
use arr_overlap::{Classes, overlaps, repeats};
use arr_record::{Part, parts};
use arr_rewrite::rewrite;
use arr_sets::{Bits, OpSet, Rows};
use arr_store::{Slots, Store};
use arr_syntax::parse;
use arr_tree::ParseFault;
use arr_view::View;
use std::alloc::{AllocError, Global};
use std::process::Abort;
use std::test::Fail;

/// The steps of a script, if it is one.
fn steps_of(alloc: Global, script: &[u8]) -> Option<Vec<Step>>
    requires { length script.now ≤ 1_048_576 }
    ensures { IfSome result (λ steps. is_recording steps.items ≡ true) }
{
    let tree = parse(alloc, script).ok()?;
    elaborate(alloc, &tree).ok()
}

/// Looks that a part is a list that becomes shorter, and that gets slots.
fn is_rewritten(rt: &impl Abort, alloc: Global, part: &Part) -> Result<(), AllocError> {
    let Part::Flush(ops) = part else {
        panic!(rt; "no list");
    };
    let list = ops.list();
    assert!(rt; list_formed(list));
    assert!(rt; rewrite(alloc, list)?.len() < list.len());
    drop(Slots::for_list(alloc, list)?);
    Ok(())
}

#[test]
fn a_script_is_recorded_and_rewritten(rt: HostRuntime) -> Result<(), Fail> {
    let alloc = rt.alloc();
    let steps = steps_of(alloc, b"a = range(3)\nb = a + 1 + 2\nprint b\n").expect(&rt, "steps");
    let recorded = parts(alloc, &steps)?;
    assert!(rt; recorded.len() == 1);
    for part in &recorded {
        is_rewritten(&rt, alloc, part)?;
    }
    Ok(())
}

#[test]
fn a_script_is_made(rt: HostRuntime) -> Result<(), Fail> {
    assert!(rt; !demo_script(rt.alloc(), 7)?.is_empty());
    Ok(())
}

#[test]
fn a_text_is_refused(rt: HostRuntime) -> Result<(), Fail> {
    let read = parse(rt.alloc(), b"print a[");
    assert!(rt; matches!(read, Err(ParseFault::Refused(_))));
    Ok(())
}

/// A view of one dimension.
fn line(base: u32, start: u32, length: u32, stride: i32) -> Result<View, Fail> {
    Ok(View::new(base, start, &[length], &[stride]).ok_or("line")?)
}

#[test]
fn views_meet(rt: HostRuntime) -> Result<(), Fail> {
    let threes = line(0, 1, 2, 3)?;
    assert!(rt; !repeats(rt.alloc(), &threes)?);
    assert!(rt; overlaps(rt.alloc(), &line(0, 0, 3, 2)?, &threes)?);
    Ok(())
}

#[test]
fn views_have_classes(rt: HostRuntime) -> Result<(), Fail> {
    let views = [line(0, 0, 3, 2)?, line(1, 0, 3, 2)?];
    drop(Classes::of(rt.alloc(), &views)?);
    Ok(())
}

#[test]
fn sets_are_made(rt: HostRuntime) -> Result<(), Fail> {
    drop(Bits::new(rt.alloc(), 200)?);
    drop(OpSet::new(rt.alloc(), 200)?);
    drop(Rows::new(rt.alloc(), 9)?);
    Ok(())
}

#[test]
fn a_store_is_made(rt: HostRuntime) -> Result<(), Fail> {
    let mut store = Store::new(rt.alloc())?;
    store.make(rt.alloc(), 7, Elem::I32, 3)?;
    store.store(7, 2, -5);
    assert_eq!(rt; store.load(7, 2), -5);
    Ok(())
}

#[test]
fn a_plan_is_copied(rt: HostRuntime) -> Result<(), Fail> {
    let alloc = rt.alloc();
    let blocks = vec![in alloc; vec![in alloc; 1, 2]?]?;
    drop(Plan { blocks }.copied(alloc)?);
    Ok(())
}
