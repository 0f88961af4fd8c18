//! One operation on views of bases.
ghost use Rattle.std.specs.Prelude.{◌≡◌, Some, map};
ghost use Rattle.std.specs.Option.{option_map, option_to_list};
ghost use Rattle.arr_view.specs.Views.{has};

use arr_num::{Code, Elem};
use arr_view::View;

/// An input: an array or a constant (docs/LANGUAGE.md, "Operations").
#[derive(Debug, Drop)]
pub enum Operand {
    /// The elements of a view.
    Array(View),
    /// The same number at each position.
    Number(i128),
}

/// A recorded operation (docs/LANGUAGE.md, "Operations").
#[derive(Debug, Drop)]
pub struct Op {
    /// What it does.
    pub code: Code,
    /// The type of its output.
    pub to: Elem,
    /// The type of its inputs.
    pub from: Elem,
    /// Where its results go.
    pub out: Option<View>,
    /// The first operand, or the only one.
    pub first: Option<Operand>,
    /// The second operand.
    pub second: Option<Operand>,
    /// The axis, from 0, along which it reduces or scans.
    pub axis: Option<u8>,
    /// The print slot, from 1, that it fills.
    pub slot: Option<u32>,
    /// The base that it ends.
    pub frees: Option<u32>,
    /// Whether it creates the base of its output.
    pub makes: bool,
}

impl Operand {
    ghost use Rattle.arr_ops.specs.Ops.{array_of};

    /// The view that it is; `None` for a constant (docs/LANGUAGE.md, "Operations").
    pub fn view(&self) -> Option<&View>
        ensures { option_map (λ v. v.now) result ≡ array_of (Some self.now) }
    {
        match self {
            Operand::Array(view) => Some(view),
            Operand::Number(_) => None,
        }
    }

    /// An equal operand (docs/MAP.md, "Copies").
    pub fn copied(&self) -> Operand
        ensures { result ≡ self.now }
    {
        match self {
            Operand::Array(view) => Operand::Array(view.copied()),
            Operand::Number(number) => Operand::Number(*number),
        }
    }
}

impl Op {
    ghost use Rattle.arr_ops.specs.Ops.{array_of, inputs, named, writes_base};

    /// The view that it writes; `None` where it writes none (docs/LANGUAGE.md, "Operations").
    pub fn out_view(&self) -> Option<&View>
        ensures { option_map (λ v. v.now) result ≡ self.now.out }
    {
        self.out.as_ref()
    }

    /// The view that its first operand is; `None` for a constant and where there is no operand (docs/LANGUAGE.md, "Operations").
    pub fn first_view(&self) -> Option<&View>
        ensures { option_map (λ v. v.now) result ≡ array_of self.now.first }
    {
        match &self.first {
            Some(operand) => operand.view(),
            None => None,
        }
    }

    /// The view that its second operand is; `None` for a constant and where there is no operand (docs/LANGUAGE.md, "Operations").
    pub fn second_view(&self) -> Option<&View>
        ensures { option_map (λ v. v.now) result ≡ array_of self.now.second }
    {
        match &self.second {
            Some(operand) => operand.view(),
            None => None,
        }
    }

    /// Whether it names the base: by a view or by ending it (docs/LANGUAGE.md, "Operations").
    pub fn names(&self, base: u32) -> bool
        ensures { result ≡ has (named self.now) base }
    {
        is_of(self.out_view(), base)
            || is_of(self.first_view(), base)
            || is_of(self.second_view(), base)
            || self.frees == Some(base)
    }

    /// Whether it writes a view of the base (docs/LANGUAGE.md, "Operations").
    pub fn writes(&self, base: u32) -> bool
        ensures { result ≡ writes_base self.now base }
    {
        match &self.out {
            Some(out) => out.base() == base,
            None => false,
        }
    }

    /// Whether it reads a view of the base (docs/LANGUAGE.md, "Operations").
    pub fn reads(&self, base: u32) -> bool
        ensures { result ≡ has (map (λ v. v.base) (inputs self.now)) base }
    {
        is_of(self.first_view(), base) || is_of(self.second_view(), base)
    }

    /// An equal operation (docs/MAP.md, "Copies").
    pub fn copied(&self) -> Op
        ensures { result ≡ self.now }
    {
        Op {
            code: self.code,
            to: self.to,
            from: self.from,
            out: copied_view(&self.out),
            first: copied_operand(&self.first),
            second: copied_operand(&self.second),
            axis: self.axis,
            slot: self.slot,
            frees: self.frees,
            makes: self.makes,
        }
    }
}

/// Whether a view, if it is there, is one of the base.
fn is_of(view: Option<&View>, base: u32) -> bool
    ensures { result ≡ has (map (λ v. v.now.base) (option_to_list view.entry)) base }
{
    match view {
        Some(view) => base == view.base(),
        None => false,
    }
}

/// An equal view, if there is one (docs/MAP.md, "Copies").
pub fn copied_view(view: &Option<View>) -> Option<View>
    ensures { result ≡ view.now }
{
    match view {
        Some(view) => Some(view.copied()),
        None => None,
    }
}

/// An equal operand, if there is one (docs/MAP.md, "Copies").
pub fn copied_operand(operand: &Option<Operand>) -> Option<Operand>
    ensures { result ≡ operand.now }
{
    match operand {
        Some(operand) => Some(operand.copied()),
        None => None,
    }
}
