//! What an operation becomes by the first rule that applies.
ghost use Rattle.std.specs.Prelude.{◌≡◌, ◌∷◌, ◌++◌, IfOk, true};
ghost use Rattle.arr_ops.specs.Formed.{is_formed};
ghost use Rattle.arr_rewrite.specs.NextRewrite.{replacement};

use crate::carried::{constant_carried, copy_carried};
use crate::joined::constants_joined;
use crate::meetings::Meetings;
use crate::rules::{
    constant_folded, fixed_known, neutral_dropped, power_unrolled, subtraction_turned,
};
use arr_ops::Op;
use std::alloc::AllocError as NoMemory;

/// What the operation becomes by the first rule that applies, of those that keep it (docs/PLANS.md, "Rewriting").
pub(crate) fn replacement(
    meetings: &mut Meetings,
    front: &[Op],
    op: &Op,
    back: &[Op],
) -> Result<Option<Op>, NoMemory>
    requires { is_formed (front.now ++ op.now ∷ back.now) ≡ true }
    ensures { IfOk result (λ next. next ≡ replacement front.now op.now back.now) }
{
    if let Some(next) = constant_folded(op) {
        return Ok(Some(next));
    }
    if let Some(next) = neutral_dropped(op) {
        return Ok(Some(next));
    }
    if let Some(next) = fixed_known(op) {
        return Ok(Some(next));
    }
    if let Some(next) = power_unrolled(op) {
        return Ok(Some(next));
    }
    if let Some(next) = constant_carried(front, op, back) {
        return Ok(Some(next));
    }
    if let Some(next) = copy_carried(meetings, front, op, back)? {
        return Ok(Some(next));
    }
    if let Some(next) = constants_joined(meetings, front, op, back)? {
        return Ok(Some(next));
    }
    Ok(subtraction_turned(op))
}
