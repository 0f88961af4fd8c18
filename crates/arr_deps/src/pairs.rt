//! What is asked of an operation, and of two.
ghost use Rattle.std.specs.Prelude.{◌≡◌, ◌||◌, IsTrue, cond, length};
ghost use Rattle.std.specs.List.{list_any};
ghost use Rattle.std.specs.Option.{option_copied};
ghost use Rattle.arr_num.specs.Kinds.{walks_input};
ghost use Rattle.arr_view.specs.Views.{has, same_lists};
ghost use Rattle.arr_ops.specs.Ops.{crosses, dep, disturbs, freed, fusible, named, inputs, is_free, outputs, same_walk, serial, walked};
ghost use Rattle.arr_deps.specs.Classed.{cross, first_view, meet, within, Stands};

use crate::classed::Classed;
use arr_ops::Op;
use arr_overlap::Classes;
use arr_view::View;

/// Whether views of two classes overlap.
fn meet(classes: &Classes, a: Option<u32>, b: Option<u32>) -> bool
    requires first { IsTrue (within (length classes.now) a) }
    requires second { IsTrue (within (length classes.now) b) }
    ensures { result ≡ meet classes.now a b }
{
    match (a, b) {
        (Some(a), Some(b)) => classes.meets(a, b),
        _ => false,
    }
}

/// Whether views of two classes overlap; unless `never` is set, one view with itself does not count.
fn cross(classes: &Classes, never: bool, a: Option<u32>, b: Option<u32>) -> bool
    requires first { IsTrue (within (length classes.now) a) }
    requires second { IsTrue (within (length classes.now) b) }
    ensures { result ≡ cross classes.now never a b }
{
    match (a, b) {
        (Some(a), Some(b)) => classes.meets(a, b) && (never || a != b),
        _ => false,
    }
}

fn frees_named(f: &Op, g: &Op) -> bool
    ensures { result ≡ list_any (has (named g.now)) (freed f.now) }
{
    match f.frees {
        Some(base) => g.names(base),
        None => false,
    }
}

/// Whether a view of a class overlaps some view of an operation.
fn meets_any(classes: &Classes, out: Option<u32>, other: &Classed) -> bool
    requires out { IsTrue (within (length classes.now) out) }
    requires other_out { IsTrue (within (length classes.now) other.now.out) }
    requires first { IsTrue (within (length classes.now) other.now.first) }
    requires second { IsTrue (within (length classes.now) other.now.second) }
    ensures { result
        ≡ ((meet classes.now out other.now.out || meet classes.now out other.now.first) || meet classes.now out other.now.second) }
{
    meet(classes, out, other.out)
        || meet(classes, out, other.first)
        || meet(classes, out, other.second)
}

/// Whether a view of a class crosses some view of an operation.
fn crosses_any(classes: &Classes, never: bool, out: Option<u32>, other: &Classed) -> bool
    requires out { IsTrue (within (length classes.now) out) }
    requires other_out { IsTrue (within (length classes.now) other.now.out) }
    requires first { IsTrue (within (length classes.now) other.now.first) }
    requires second { IsTrue (within (length classes.now) other.now.second) }
    ensures { result
        ≡ ((cross classes.now never out other.now.out || cross classes.now never out other.now.first) || cross classes.now never out other.now.second) }
{
    cross(classes, never, out, other.out)
        || cross(classes, never, out, other.first)
        || cross(classes, never, out, other.second)
}

fn disturbs(classes: &Classes, f: &Op, g: &Op, f_classes: &Classed, g_classes: &Classed) -> bool
    requires first { Stands classes.now f.now f_classes.now }
    requires second { Stands classes.now g.now g_classes.now }
    ensures { result ≡ disturbs f.now g.now }
{
    meets_any(classes, f_classes.out, g_classes) || frees_named(f, g)
}

/// Whether two operations depend on one another, the first being the earlier.
pub(crate) fn depend(
    classes: &Classes,
    f: &Op,
    g: &Op,
    f_classes: &Classed,
    g_classes: &Classed,
) -> bool
    requires first { Stands classes.now f.now f_classes.now }
    requires second { Stands classes.now g.now g_classes.now }
    ensures { result ≡ dep f.now g.now }
{
    disturbs(classes, f, g, f_classes, g_classes) || disturbs(classes, g, f, g_classes, f_classes)
}

/// Whether an operation's output overlaps an input and is not that input; a reduction's output overlaps an input at all.
pub(crate) fn is_serial(classes: &Classes, op: &Op, op_classes: &Classed) -> bool
    requires { Stands classes.now op.now op_classes.now }
    ensures { result ≡ serial op.now }
{
    let never = op.code.is_reduction();
    cross(classes, never, op_classes.out, op_classes.first)
        || cross(classes, never, op_classes.out, op_classes.second)
}

fn crosses(classes: &Classes, f: &Op, g: &Op, f_classes: &Classed, g_classes: &Classed) -> bool
    requires first { Stands classes.now f.now f_classes.now }
    requires second { Stands classes.now g.now g_classes.now }
    ensures { result ≡ crosses f.now g.now }
{
    crosses_any(classes, f.code.is_reduction(), f_classes.out, g_classes)
}

/// The view whose shape an operation walks; none for FREE.
fn walked_view(op: &Op) -> Option<&View>
    ensures { option_copied result ≡ first_view (cond (walks_input op.now.code) (inputs op.now) (outputs op.now)) }
{
    if !op.code.walks_input() {
        return op.out_view();
    }
    match op.first_view() {
        Some(view) => Some(view),
        None => op.second_view(),
    }
}

fn same_shape(left: &View, right: &View) -> bool
    ensures { result ≡ same_lists left.now.lengths right.now.lengths }
{
    left.shape() == right.shape()
}

fn same_walk(f: &Op, g: &Op) -> bool
    ensures { result ≡ same_walk (walked f.now) (walked g.now) }
{
    let Some(left) = walked_view(f) else {
        return false;
    };
    let Some(right) = walked_view(g) else {
        return false;
    };
    same_shape(left, right)
}

/// Whether two operations may share a block, where it is known of each whether it is serial.
pub(crate) fn may_fuse(
    classes: &Classes,
    f: &Op,
    g: &Op,
    f_classes: &Classed,
    g_classes: &Classed,
    f_serial: bool,
    g_serial: bool,
) -> bool
    requires first { Stands classes.now f.now f_classes.now }
    requires second { Stands classes.now g.now g_classes.now }
    requires f_serial { f_serial ≡ serial f.now }
    requires g_serial { g_serial ≡ serial g.now }
    ensures { result ≡ fusible f.now g.now }
{
    if f.frees.is_some() || g.frees.is_some() {
        return true;
    }
    !f_serial
        && !g_serial
        && same_walk(f, g)
        && !crosses(classes, f, g, f_classes, g_classes)
        && !crosses(classes, g, f, g_classes, f_classes)
}
