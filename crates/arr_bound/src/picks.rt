//! Picking members of a set that are pairwise apart.
ghost use Rattle.std.specs.Prelude.{◌≡◌, ◌≤◌, ◌<◌, ◌+◌, ◌/◌, ◌++◌, ◌∷◌, ◌==◌, ◌&&◌, ℕ, [], true, not, length, IfOk, OnOk, MatchOption};
ghost use Rattle.arr_sets.specs.Bits.{is_set};
ghost use Rattle.arr_bound.specs.Sets.{in_row, IsTable, NoneFrom};
ghost use Rattle.arr_bound.specs.Picks.{IsLead, IsPick};

use crate::NoMemory;
use crate::sets::{first_in, keep_row, meets_row, take_out};
use arr_law::OpList;
use std::alloc::Global;

/// The member to begin with: the first that is apart from another, or the first where none is.
fn lead_of(alloc: Global, set: &[u64], apart: &[u64], count: u32) -> Result<Option<u32>, NoMemory>
    requires few { count ≤ 256 }
    requires long { length set.now ≡ count / 64 + 1 }
    requires table { IsTable count apart.now }
    requires inside { (g : ℕ) → is_set set.now g ≡ true → g ≤ count }
    ensures { IfOk result (λ lead. MatchOption lead (NoneFrom set.now 0)
        (λ m. IsLead (in_row (count / 64 + 1) apart.now) set.now m)) }
{
    let mut rest = set.to_vec(alloc)?;
    let first = first_in(set, 0);
    let mut next = first;
    while let Some(f) = next {
        if meets_row(set, apart, f) {
            return Ok(Some(f));
        }
        take_out(&mut rest, f);
        next = first_in(rest.as_slice(), f as usize / 64);
    }
    Ok(first)
}

/// Picks a member: those that are not apart from it leave the set, and so does it.
fn pick(
    picks: &mut OpList,
    set: &mut Vec<u64>,
    apart: &[u64],
    count: u32,
    f: u32,
) -> Result<(), NoMemory>
    requires few { count ≤ 256 }
    requires long { length set.old.items ≡ count / 64 + 1 }
    requires table { IsTable count apart.now }
    requires inside { f ≤ count }
    ensures picks { OnOk result (picks.new ≡ picks.old ++ f ∷ []) }
    ensures long { OnOk result (length set.new.items ≡ length set.old.items) }
    ensures members { OnOk result ((g : ℕ) → is_set set.new.items g
        ≡ ((is_set set.old.items g && in_row (count / 64 + 1) apart.now f g) && not (f == g))) }
{
    picks.push(f)?;
    keep_row(set, apart, f);
    take_out(set, f);
    Ok(())
}

/// Members of a set that are pairwise apart, the first ones that can be picked; two at least, if two are apart.
pub(crate) fn picks_of(
    alloc: Global,
    set: &mut Vec<u64>,
    apart: &[u64],
    count: u32,
) -> Result<OpList, NoMemory>
    requires few { count ≤ 256 }
    requires long { length set.old.items ≡ count / 64 + 1 }
    requires table { IsTable count apart.now }
    requires inside { (g : ℕ) → is_set set.old.items g ≡ true → g ≤ count }
    ensures { IfOk result (λ picks. IsPick (in_row (count / 64 + 1) apart.now) (is_set set.old.items) picks) }
{
    let mut picks = OpList::new(alloc);
    let Some(lead) = lead_of(alloc, set.as_slice(), apart, count)? else {
        return Ok(picks);
    };
    pick(&mut picks, set, apart, count, lead)?;
    let mut next = first_in(set.as_slice(), 0);
    while let Some(f) = next {
        pick(&mut picks, set, apart, count, f)?;
        next = first_in(set.as_slice(), f as usize / 64);
    }
    Ok(picks)
}
