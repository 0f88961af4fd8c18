//! The statements of a script, one after another.

ghost use Rattle.std.specs.Prelude.{◌≡◌, IfErr, IfOk, Ok, true};
ghost use Rattle.arr_elab.specs.Contract.{Reads, RefusedBy};
ghost use Rattle.arr_elab.specs.Outcome as spec;
ghost use Rattle.arr_elab.specs.Outcome.{IsBegun, IsReached};
ghost use Rattle.arr_elab.specs.Recording.{is_recording};
ghost use Rattle.arr_tree.specs.declared.tree.Form.TheVariants as form;

use crate::fault::ElabFault;
use crate::forms::{array, prepared};
use crate::gather::{gather_by, scatter_by};
use crate::operation::{operation, taken};
use crate::reader::Reader;
use crate::step::Step;
use crate::target::stored;
use arr_num::Code;
use arr_tree::{Expr, Form, Place, Script, Statement};
use std::alloc::Global;

fn print(alloc: Global, reader: &mut Reader, e: &Expr) -> Result<(), ElabFault>
    ensures { Reads (spec.effect (form.Print e.now) reader.old) result reader.new }
{
    let x = array(alloc, reader, e)?;
    reader.act(operation(Code::Sync, x.elem, x.elem, taken(x.view), None, None))
}

fn assign(
    alloc: Global,
    reader: &mut Reader,
    target: &Expr,
    equals: Place,
    value: &Expr,
) -> Result<(), ElabFault>
    ensures { Reads (spec.effect (form.Assign target.now equals value.now) reader.old) result reader.new }
{
    let place = array(alloc, reader, target)?;
    let value = prepared(alloc, reader, value)?;
    stored(alloc, reader, place, equals, value)
}

fn effect(alloc: Global, reader: &mut Reader, form: &Form) -> Result<(), ElabFault>
    requires { IsBegun reader.old }
    ensures { Reads (spec.effect form.now reader.old) result reader.new }
{
    match form {
        Form::Print(e) => print(alloc, reader, e),
        Form::Del { name } => reader.forget(alloc, name),
        Form::Flush => reader.step(Step::Cut),
        Form::Bind { name, value } => {
            let array = array(alloc, reader, value)?;
            reader.bind(alloc, name, array)
        }
        Form::Assign {
            target,
            equals,
            value,
        } => assign(alloc, reader, target, *equals, value),
        Form::Gather {
            name,
            at,
            source,
            index,
        } => gather_by(alloc, reader, name, *at, source, index),
        Form::Scatter {
            at,
            target,
            index,
            values,
        } => scatter_by(alloc, reader, *at, target, index, values),
    }
}

fn statement(alloc: Global, reader: &mut Reader, statement: &Statement) -> Result<(), ElabFault>
    requires { IsReached reader.old }
    ensures { Reads (spec.statement statement.now reader.old) result reader.new }
{
    reader.begin()?;
    effect(alloc, reader, &statement.form)?;
    reader.step(Step::Done)
}

fn statements(alloc: Global, reader: &mut Reader, mut rest: &[Statement]) -> Result<(), ElabFault>
    requires { IsReached reader.old }
    ensures { Reads (spec.statements rest.entry.now reader.old) result reader.new }
{
    while let [first, others @ ..] = rest {
        statement(alloc, reader, first)?;
        rest = others;
    }
    Ok(())
}

/// The steps of an accepted script, in the order in which its statements are read: the operations, with the arguments of each before
/// it and from left to right, and what its names stand for (docs/LANGUAGE.md, "Steps"). Else the first refusal, with the place of the
/// token: an unknown name, a wrong type, a literal outside its type, a shape or view that its rule refuses, too many live elements, a
/// target that has an element twice, or too many names (docs/LANGUAGE.md, "Refusals"). Want of memory is the only other answer.
pub fn elaborate(alloc: Global, script: &Script) -> Result<Vec<Step>, ElabFault>
    ensures steps { IfOk result (λ steps. spec.outcome script.now.statements ≡ Ok steps.items) }
    ensures refused { IfErr result (RefusedBy (spec.outcome script.now.statements)) }
    // What the steps keep to.
    ensures recording { IfOk result (λ steps. is_recording steps.items ≡ true) }
{
    let mut reader = Reader::new(alloc);
    statements(alloc, &mut reader, script.statements.as_slice())?;
    Ok(reader.into_steps())
}
