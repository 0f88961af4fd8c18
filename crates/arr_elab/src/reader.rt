//! What is known while a script is read, and the steps so far.

ghost use Rattle.std.specs.Prelude.{◌≡◌, ◌<◌, get_or, length, IfOk, IsTrue};
ghost use Rattle.arr_shape.specs.Shapes.{checked_shape};
ghost use Rattle.arr_elab.specs.Contract.{Reads};
ghost use Rattle.arr_elab.specs.State as spec;
ghost use Rattle.arr_elab.specs.State.{nothing_yet, number_of, stands_for};
ghost use Rattle.arr_elab.specs.Expressions.{lookup};
ghost use Rattle.arr_elab.specs.Outcome.{bind, forget, may_bind, set_name};
ghost use Rattle.arr_elab.specs.Outcome as outcome;
ghost use Rattle.arr_elab.specs.Totals.{base_of, has_place, is_there};

use crate::bases::Bases;
use crate::fault::ElabFault;
use crate::names::Names;
use crate::operation::ruled;
use crate::shape::ArrayShape;
use crate::step::Step;
use crate::value::Array;
use arr_ops::Op;
use arr_overlap::NoMemory;
use arr_tree::{Kind, Lengths, Place, Word};
use arr_view::View;
use std::alloc::Global;
use std::marker::Model;

/// The names, the bases and the steps of a script so far.
#[derive(Drop)]
pub(crate) struct Reader {
    names: Names,
    bases: Bases,
    steps: Vec<Step>,
}

impl Model for Reader {
    ghost use Rattle.arr_elab.specs.State.{State};
    ghost use Rattle.arr_elab.specs.Totals.{IsKept, IsBounded, lengths};

    ghost Value = { State };

    ghost view = { λ r. record { names = r.names; bases = lengths r.bases.list; first = r.bases.first; steps = r.steps.items } };

    ghost invariant = { λ r. (IsKept r.names r.bases) × (IsBounded r.names (lengths r.bases.list)) };
}

/// At most so many names are bound at once.
const MOST_NAMES: u64 = 1024;

/// The base of an array, if there is one.
fn base_of(array: &Option<Array>) -> Option<u32>
    ensures { result ≡ base_of array.now }
{
    match array {
        Some(array) => Some(array.view.base()),
        None => None,
    }
}

impl Reader {
    pub(crate) fn new(alloc: Global) -> Reader
        ensures { result ≡ nothing_yet }
    {
        Reader {
            names: Names::new(alloc),
            bases: Bases::new(alloc),
            steps: Vec::new(alloc),
        }
    }

    /// One more step.
    pub(crate) fn step(&mut self, step: Step) -> Result<(), ElabFault>
        ensures { Reads (spec.step step self.old) result self.new }
    {
        match self.steps.push(step) {
            Ok(()) => Ok(()),
            Err(_) => Err(ElabFault::NoMemory),
        }
    }

    /// An operation is recorded.
    pub(crate) fn act(&mut self, op: Op) -> Result<(), ElabFault>
        ensures { Reads (spec.act op self.old) result self.new }
    {
        self.step(Step::Act(op))
    }

    /// A fresh base of these lengths, whole. `TooMuchLive` exactly where there would be more than 16,777,216 live elements.
    pub(crate) fn fresh(&mut self, at: Place, shape: &ArrayShape) -> Result<View, ElabFault>
        ensures { Reads (spec.fresh at shape.now self.old) result self.new }
    {
        let Ok(base) = u32::try_from(self.bases.count()) else {
            return Err(ElabFault::NoMemory);
        };
        let view = View::whole(base, shape.lengths()).unwrap();
        let count = view.positions();
        if !self.bases.has_room(count) {
            return Err(ElabFault::at(at, Kind::TooMuchLive));
        }
        self.bases.make(count)?;
        Ok(view)
    }

    /// A statement begins.
    pub(crate) fn begin(&mut self) -> Result<(), ElabFault>
        ensures { Reads (outcome.begin self.old) result self.new }
    {
        self.bases.begin();
        Ok(())
    }

    /// The base that a name stands for, if it stands for any.
    fn base(&self, name: &[u8]) -> Option<u32>
        ensures { result ≡ base_of (spec.stands_for self.now.names name.now) }
    {
        match self.names.get(name) {
            Some(array) => Some(array.view.base()),
            None => None,
        }
    }

    /// From here on a name stands for something else.
    fn set_name(
        &mut self,
        alloc: Global,
        name: &[u8],
        array: Option<Array>,
    ) -> Result<(), ElabFault>
        requires there { IsTrue (is_there array self.old.bases) }
        requires few { IsTrue (has_place array self.old.names name.now) }
        ensures { Reads (set_name name.now array self.old) result self.new }
    {
        let new = base_of(&array);
        let old = self.base(name);
        self.names.set(alloc, name, array)?;
        self.bases.hold(new);
        self.bases.release(old);
        Ok(())
    }

    /// The array that a name stands for. `UnknownName` exactly where it stands for none.
    pub(crate) fn lookup(&self, word: &Word) -> Result<Array, ElabFault>
        ensures { Reads (lookup word.now self.now) result self.now }
    {
        match self.names.get(word.text.as_slice()) {
            Some(array) => Ok(array.copied()),
            None => Err(ElabFault::at(word.at, Kind::UnknownName)),
        }
    }

    /// The shape that a script gives; what the rule of shapes refuses is refused at its place.
    pub(crate) fn shape(&self, shape: &Lengths) -> Result<ArrayShape, ElabFault>
        ensures { Reads (spec.ruled shape.now.at (checked_shape shape.now.list) self.now) result self.now }
    {
        match ArrayShape::of_lengths(shape.list.as_slice()) {
            Ok(lengths) => Ok(lengths),
            Err(fault) => Err(ruled(shape.at, fault)),
        }
    }

    /// How many elements a base has; 0 where there is no such base.
    pub(crate) fn length(&self, base: u32) -> u32
        ensures { result ≡ get_or self.now.bases base 0 }
    {
        self.bases.length(base)
    }

    /// The number of a name, or of the next one.
    fn number(&self, name: &[u8]) -> Result<u32, NoMemory>
        ensures { IfOk result (λ number. number ≡ number_of self.now.names name.now) }
    {
        match u32::try_from(self.names.number(name)) {
            Ok(number) => Ok(number),
            Err(_) => Err(NoMemory),
        }
    }

    /// Whether a name may be bound: it is bound already, or fewer than 1,024 are.
    fn may_bind(&self, name: &[u8]) -> bool
        ensures { result ≡ may_bind self.now.names name.now }
    {
        self.names.get(name).is_some() || self.names.bound() < MOST_NAMES
    }

    /// A name stands for an array from here on. `TooManyNames` exactly where it is new and 1,024 names are bound.
    pub(crate) fn bind(&mut self, alloc: Global, word: &Word, array: Array) -> Result<(), ElabFault>
        requires { array.view.base < length self.old.bases }
        ensures { Reads (bind word.now array self.old) result self.new }
    {
        let number = self.number(word.text.as_slice())?;
        if !self.may_bind(word.text.as_slice()) {
            return Err(ElabFault::at(word.at, Kind::TooManyNames));
        }
        let base = array.view.base();
        self.set_name(alloc, word.text.as_slice(), Some(array))?;
        self.step(Step::Name { name: number, base })
    }

    /// A name stands for nothing from here on. `UnknownName` exactly where it stands for nothing already.
    pub(crate) fn forget(&mut self, alloc: Global, word: &Word) -> Result<(), ElabFault>
        ensures { Reads (forget word.now self.old) result self.new }
    {
        let number = self.number(word.text.as_slice())?;
        self.lookup(word)?;
        self.set_name(alloc, word.text.as_slice(), None)?;
        self.step(Step::Forget { name: number })
    }

    /// The steps of the whole script.
    pub(crate) fn into_steps(self) -> Vec<Step>
        ensures { result.items ≡ self.steps }
    {
        self.steps
    }
}
