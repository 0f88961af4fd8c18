//! From steps to parts.
ghost use Rattle.std.specs.Prelude.{ℕ, ◌≡◌, true, None, IfOk, OnOk};
ghost use Rattle.std.specs.List.{list_all};
ghost use Rattle.arr_ops.specs.Memory.{empty};
ghost use Rattle.arr_elab.specs.Recording.{is_recording};
ghost use Rattle.arr_elab.specs.Steps.{eager_arrays};
ghost use Rattle.arr_record.specs.Parts.{parts_of};
ghost use Rattle.arr_record.specs.Ledger.{FollowsStep, Ready};
ghost use Rattle.arr_record.specs.Runs.{after_parts, each_fits, is_part, printed_parts};

use crate::NoMemory;
use crate::owners::Owners;
use crate::part::Part;
use crate::writer::Writer;
use arr_elab::Step;
use std::alloc::Global;

/// Follows one step.
fn follow(
    alloc: Global,
    writer: &mut Writer,
    owners: &mut Owners,
    step: &Step,
) -> Result<(), NoMemory>
    requires { Ready writer.old owners.old step.now }
    ensures { OnOk result (FollowsStep writer.old owners.old step.now writer.new owners.new) }
{
    match step {
        Step::Act(op) => {
            owners.make_for(op)?;
            writer.append(alloc, op.copied())
        }
        Step::Gather(gather) => {
            owners.make(gather.out.base(), gather.to)?;
            writer.put(alloc, Part::Gather(gather.copied()))
        }
        Step::Scatter(scatter) => writer.put(alloc, Part::Scatter(scatter.copied())),
        Step::Name { name, base } => owners.bind(*name, *base),
        Step::Forget { name } => owners.release(*name),
        Step::Done => owners.free_loose(alloc, writer),
        Step::Cut => writer.cut(alloc),
    }
}

/// The parts that the steps of an accepted script run one after another: lists of operations, with FREEs and slots, cut after 256
/// operations and at each flush, and the gathers and scatters between them, each behind what waits (docs/PLANS.md, "Flushes"). Want of
/// memory is its one refusal.
pub fn parts(alloc: Global, steps: &[Step]) -> Result<Vec<Part>, NoMemory>
    requires recording { is_recording steps.now ≡ true }
    ensures parts { IfOk result (λ parts. parts.items ≡ parts_of steps.now) }
    // Each list is formed and has 1 to 256 operations; each gather and scatter is one.
    ensures formed { IfOk result (λ parts. list_all is_part parts.items ≡ true) }
    ensures fitting { IfOk result (λ parts. each_fits empty parts.items ≡ true) }
    ensures prints { IfOk result (λ parts. printed_parts empty parts.items ≡ eager_arrays steps.now) }
    ensures emptied { IfOk result (λ parts. (b : ℕ) → (after_parts empty parts.items).bases b ≡ None) }
{
    let mut writer = Writer::new(alloc);
    let mut owners = Owners::new(alloc);
    for step in steps {
        follow(alloc, &mut writer, &mut owners, step)?;
    }
    owners.release_all(alloc)?;
    owners.free_loose(alloc, &mut writer)?;
    writer.cut(alloc)?;
    Ok(writer.into_parts())
}
