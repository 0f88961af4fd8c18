//! Gathers and scatters.

ghost use Rattle.std.specs.Prelude.{◌≡◌};
ghost use Rattle.arr_elab.specs.Contract.{Reads};
ghost use Rattle.arr_elab.specs.Outcome.{gather_arrays, scatter_arrays, effect};
ghost use Rattle.arr_tree.specs.declared.tree.Form.TheVariants as form;

use crate::fault::ElabFault;
use crate::forms::{array_of, value};
use crate::reader::Reader;
use crate::shape::ArrayShape;
use crate::step::Step;
use crate::target::same_lists;
use crate::value::Array;
use arr_ops::{Gather, Scatter};
use arr_overlap::repeats;
use arr_tree::{Expr, Kind, Place, Word};
use std::alloc::Global;

/// A fresh base of the index's shape takes numbers of the source, and the name stands for it.
fn gather_arrays(
    alloc: Global,
    reader: &mut Reader,
    name: &Word,
    at: Place,
    source: Array,
    index: Array,
) -> Result<(), ElabFault>
    ensures { Reads (gather_arrays name.now at source index reader.old) result reader.new }
{
    let out = reader.fresh(at, &ArrayShape::of(&index.view))?;
    let made = Array {
        view: out.copied(),
        elem: source.elem,
    };
    reader.step(Step::Gather(Gather {
        out,
        source: source.view,
        index: index.view,
        to: source.elem,
        of: index.elem,
    }))?;
    reader.bind(alloc, name, made)
}

/// The target takes the values. `OutputRepeats` where it has an element twice.
fn scatter_arrays(
    alloc: Global,
    reader: &mut Reader,
    at: Place,
    target: Array,
    index: Array,
    values: Array,
) -> Result<(), ElabFault>
    ensures { Reads (scatter_arrays at target index values reader.old) result reader.new }
{
    if target.elem != values.elem {
        return Err(ElabFault::at(at, Kind::TypeMismatch));
    }
    if !same_lists(index.view.shape(), values.view.shape()) {
        return Err(ElabFault::at(at, Kind::ShapeMismatch));
    }
    if repeats(alloc, &target.view)? {
        return Err(ElabFault::at(at, Kind::OutputRepeats));
    }
    reader.step(Step::Scatter(Scatter {
        target: target.view,
        index: index.view,
        values: values.view,
        to: target.elem,
        of: index.elem,
    }))
}

/// `name = gather(source, index)`, with the place of the word.
pub(crate) fn gather_by(
    alloc: Global,
    reader: &mut Reader,
    name: &Word,
    at: Place,
    source: &Expr,
    index: &Expr,
) -> Result<(), ElabFault>
    ensures { Reads (effect (form.Gather name.now at source.now index.now) reader.old) result reader.new }
{
    let x = value(alloc, reader, source)?;
    let y = value(alloc, reader, index)?;
    let source = array_of(x)?;
    let index = array_of(y)?;
    gather_arrays(alloc, reader, name, at, source, index)
}

/// `scatter(target, index, values)`, with the place of the word.
pub(crate) fn scatter_by(
    alloc: Global,
    reader: &mut Reader,
    at: Place,
    target: &Expr,
    index: &Expr,
    values: &Expr,
) -> Result<(), ElabFault>
    ensures { Reads (effect (form.Scatter at target.now index.now values.now) reader.old) result reader.new }
{
    let x = value(alloc, reader, target)?;
    let y = value(alloc, reader, index)?;
    let z = value(alloc, reader, values)?;
    let target = array_of(x)?;
    let index = array_of(y)?;
    let values = array_of(z)?;
    scatter_arrays(alloc, reader, at, target, index, values)
}
