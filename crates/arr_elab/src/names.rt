//! The names of a script so far.

ghost use Rattle.std.specs.Prelude.{◌≡◌, [], OnOk, OnErr, is_some, cond, option_copied};
ghost use Rattle.std.specs.List.{count_by};
ghost use Rattle.arr_elab.specs.State.{is_bound, number_of, stands_for, with_name};

use crate::value::Array;
use arr_overlap::NoMemory;
use indexmap::IndexMap;
use std::alloc::Global;
use std::marker::Model;

/// Each name that was ever bound, in the order of first sight, with the array that it stands for; and how many are bound.
/// A name stays after `del`, so its number is its place.
#[derive(Drop)]
pub(crate) struct Names {
    arrays: IndexMap<Vec<u8>, Option<Array>>,
    bound: u64,
}

impl Model for Names {
    ghost use Rattle.std.specs.Prelude.{◌≡◌, ℕ, List, Option, map};
    ghost use Rattle.std.specs.List.{count_by};
    ghost use Rattle.arr_elab.specs.declared.value.Array.{Array};
    ghost use Rattle.arr_elab.specs.State.{Names as Value, is_bound};

    ghost Value = { List (List ℕ × Option Array) };

    ghost view = { λ n. map (λ entry. (entry.0.items, entry.1)) n.arrays.entries };

    ghost invariant = { λ n. n.bound ≡ count_by is_bound (map (λ entry. (entry.0.items, entry.1)) n.arrays.entries) };
}

/// 1 where there is an array.
fn one_if(array: &Option<Array>) -> u64
    ensures { result ≡ cond (is_some array.now) 1 0 }
{
    u64::from(array.is_some())
}

impl Names {
    pub(crate) fn new(alloc: Global) -> Names
        ensures { result ≡ [] }
    {
        Names {
            arrays: IndexMap::new(alloc),
            bound: 0,
        }
    }

    /// How many names are bound.
    pub(crate) fn bound(&self) -> u64
        ensures { result ≡ count_by is_bound self.now }
    {
        self.bound
    }

    /// The array that a name stands for.
    pub(crate) fn get(&self, name: &[u8]) -> Option<&Array>
        ensures { option_copied result ≡ stands_for self.now name.now }
    {
        self.arrays.get(name)?.as_ref()
    }

    /// The number of a name, or of the next one.
    pub(crate) fn number(&self, name: &[u8]) -> usize
        ensures { result ≡ number_of self.now name.now }
    {
        self.arrays.get_index_of(name).unwrap_or(self.arrays.len())
    }

    /// From here on a name stands for something else.
    pub(crate) fn set(
        &mut self,
        alloc: Global,
        name: &[u8],
        array: Option<Array>,
    ) -> Result<(), NoMemory>
        ensures named { OnOk result (self.new ≡ with_name self.old name.now array) }
        ensures unchanged { OnErr result (self.new ≡ self.old) }
    {
        let key = name.to_vec(alloc)?;
        // No more are bound than there are names.
        let _most = self.arrays.len();
        let now = one_if(&array);
        let old = self.arrays.insert(key, array)?.flatten();
        self.bound = self.bound + now - one_if(&old);
        Ok(())
    }
}
