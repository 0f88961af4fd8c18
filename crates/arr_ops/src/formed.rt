//! Which operations there are.
ghost use Rattle.std.specs.Prelude.{◌≡◌, ◌+◌, ◌<◌, ◌&&◌, ◌==◌, not, length, drop, get_or};
ghost use Rattle.std.specs.List.{list_all};
ghost use Rattle.std.specs.Option.{option_map, option_to_list};
ghost use Rattle.arr_num.specs.Kinds.{kind};
ghost use Rattle.arr_num.specs.Numbers.{in_type};
ghost use Rattle.arr_view.specs.Views.{elements, has, is_view, positions, repeats, same_lists};
ghost use Rattle.arr_ops.specs.Ops.{inputs, outputs, views};
ghost use Rattle.arr_ops.specs.Formed.{along_axis, dropped_axis, elementwise, is_array, is_whole, kind_kept, makes_whole, numbers_kept, numbers_of, operands_kept, plain, same_elem, same_shape, types_kept, well_formed, writes_once};

use crate::{Op, Operand};
use arr_num::{Code, Elem};
use arr_view::View;

/// Whether an operation obeys every rule of its own (docs/LANGUAGE.md, "Operations"): its parts are those of its code, of the right
/// shapes and types; its output never repeats; a creator writes a whole base, in order, that no operand names.
pub fn well_formed(op: &Op) -> bool
    ensures { result ≡ well_formed op.now }
{
    operands_kept(op)
        && types_kept(op)
        && numbers_kept(op)
        && has_views(op)
        && writes_once(op)
        && makes_whole(op)
}

/// Whether the operation has the parts that its code asks for, of matching shapes.
fn operands_kept(op: &Op) -> bool
    ensures { result ≡ operands_kept (kind op.now.code) op.now }
{
    match op.code {
        Code::Absolute | Code::Invert | Code::Identity => elementwise(op)
            && op.first.is_some()
            && op.second.is_none(),
        Code::Range => elementwise(op) && op.first.is_none() && op.second.is_none(),
        Code::AddReduce | Code::MultiplyReduce | Code::MinimumReduce | Code::MaximumReduce =>
            reduces(op),
        Code::AddAccumulate | Code::MultiplyAccumulate => scans(op),
        Code::Free => {
            op.frees.is_some()
                && op.out.is_none()
                && op.first.is_none()
                && op.second.is_none()
                && op.axis.is_none()
                && op.slot.is_none()
                && !op.makes
        }
        Code::Sync => {
            op.slot.is_some()
                && is_array(&op.first)
                && op.out.is_none()
                && op.second.is_none()
                && op.axis.is_none()
                && op.frees.is_none()
                && !op.makes
        }
        _ => elementwise(op) && op.first.is_some() && op.second.is_some(),
    }
}

/// Whether it has an output, no part beside the operands, and input views of the output's shape.
fn elementwise(op: &Op) -> bool
    ensures { result ≡ elementwise op.now }
{
    op.axis.is_none()
        && op.slot.is_none()
        && op.frees.is_none()
        && match &op.out {
            Some(out) => has_shape(op.first_view(), out.shape())
                && has_shape(op.second_view(), out.shape()),
            None => false,
        }
}

/// Whether a view, if it is there, has the shape.
fn has_shape(view: Option<&View>, shape: &[u32]) -> bool
    ensures { result ≡ same_shape shape.now (option_to_list (option_map (λ v. v.now) view.entry)) }
{
    match view {
        Some(view) => same_lists(view.shape(), shape),
        None => true,
    }
}

fn is_array(operand: &Option<Operand>) -> bool
    ensures { result ≡ is_array operand.now }
{
    matches!(operand, Some(Operand::Array(_)))
}

/// Whether it folds along an axis of its input, which its output lacks.
fn reduces(op: &Op) -> bool
    ensures { result ≡ along_axis op.now dropped_axis }
{
    match (&op.out, &op.first, op.axis) {
        (Some(out), Some(Operand::Array(input)), Some(axis)) => {
            op.second.is_none()
                && op.slot.is_none()
                && op.frees.is_none()
                && op.to == op.from
                && usize::from(axis) < input.shape().len()
                && lacks_axis(out.shape(), input.shape(), usize::from(axis))
        }
        _ => false,
    }
}

/// Whether it folds along an axis of its input, whose shape its output has.
fn scans(op: &Op) -> bool
    ensures { result ≡ along_axis op.now (λ axis lengths. lengths) }
{
    match (&op.out, &op.first, op.axis) {
        (Some(out), Some(Operand::Array(input)), Some(axis)) => {
            op.second.is_none()
                && op.slot.is_none()
                && op.frees.is_none()
                && op.to == op.from
                && usize::from(axis) < input.shape().len()
                && same_lists(out.shape(), input.shape())
        }
        _ => false,
    }
}

/// Whether the first shape is the second without an axis, or [1] where the axis is all that it has.
fn lacks_axis(shape: &[u32], whole: &[u32], axis: usize) -> bool
    requires { axis < length whole.now }
    ensures { result ≡ same_lists shape.now (dropped_axis axis whole.now) }
{
    if whole.len() == 1 {
        return same_lists(shape, &[1]);
    }
    if shape.len() + 1 != whole.len() {
        return false;
    }
    same_lists(&shape[..axis], &whole[..axis]) && same_lists(&shape[axis..], &whole[axis + 1..])
}

fn same_lists(left: &[u32], right: &[u32]) -> bool
    ensures { result ≡ same_lists left.now right.now }
{
    left == right
}

/// Whether the types are those of the code.
fn types_kept(op: &Op) -> bool
    ensures { result ≡ types_kept op.now.code op.now }
{
    match op.code {
        Code::Equal
        | Code::NotEqual
        | Code::Less
        | Code::LessEqual
        | Code::Greater
        | Code::GreaterEqual => op.to == Elem::U8,
        Code::Identity => is_array(&op.first) || op.to == op.from,
        _ => op.to == op.from,
    }
}

/// Whether the constants are of the inputs' type, but for an exponent, which is a constant of any size below 2^64.
fn numbers_kept(op: &Op) -> bool
    ensures { result ≡ numbers_kept op.now.code op.now }
{
    match op.code {
        Code::Power => holds_number(&op.first, op.from)
            && !is_array(&op.second)
            && holds_number(&op.second, Elem::U64),
        _ => holds_number(&op.first, op.from) && holds_number(&op.second, op.from),
    }
}

/// Whether an operand is of the type, if it is a constant.
fn holds_number(operand: &Option<Operand>, ty: Elem) -> bool
    ensures { result ≡ list_all (in_type ty) (numbers_of operand.now) }
{
    match operand {
        Some(Operand::Number(number)) => ty.holds(*number),
        _ => true,
    }
}

/// Whether its views obey the rules of views, as every `View` does.
fn has_views(op: &Op) -> bool
    ensures { result ≡ list_all is_view (views op.now) }
{
    is_view(op.out_view()) && is_view(op.first_view()) && is_view(op.second_view())
}

/// Whether a view, if it is there, obeys the rules of views: one of them is that it has a position.
fn is_view(view: Option<&View>) -> bool
    ensures { result ≡ list_all is_view (option_to_list (option_map (λ v. v.now) view.entry)) }
{
    match view {
        Some(view) => view.positions() >= 1,
        None => true,
    }
}

/// Whether the output never repeats.
fn writes_once(op: &Op) -> bool
    ensures { result ≡ writes_once op.now }
{
    match &op.out {
        Some(out) => !repeats(out),
        None => true,
    }
}

/// Whether two positions of the view have the same element: each is held against each.
fn repeats(view: &View) -> bool
    ensures { result ≡ repeats view.now }
{
    for position in 0..view.positions() {
        if comes_again(view, position) {
            return true;
        }
    }
    false
}

/// Whether a later position has the element of this one.
fn comes_again(view: &View, position: u32) -> bool
    requires { position < positions view.now.lengths }
    ensures { result ≡ has (drop (position + 1) (elements view.now)) (get_or (elements view.now) position 0) }
{
    let element = view.element(position);
    for later in position + 1..view.positions() {
        if view.element(later) == element {
            return true;
        }
    }
    false
}

/// Whether a creator writes a whole base, in order, that no operand names.
fn makes_whole(op: &Op) -> bool
    ensures { result ≡ makes_whole op.now }
{
    !op.makes
        || match &op.out {
            Some(out) => is_whole(out)
                && avoids(op.first_view(), out.base())
                && avoids(op.second_view(), out.base()),
            None => false,
        }
}

/// Whether a view, if it is there, is one of another base.
fn avoids(view: Option<&View>, base: u32) -> bool
    ensures { result ≡ list_all (λ v. not (v.base == base)) (option_to_list (option_map (λ v. v.now) view.entry)) }
{
    match view {
        Some(view) => view.base() != base,
        None => true,
    }
}

/// Whether the elements are 0, 1, 2 and so on.
fn is_whole(view: &View) -> bool
    ensures { result ≡ is_whole view.now }
{
    view.start() == 0 && view.is_gapless()
}
