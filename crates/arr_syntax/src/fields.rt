ghost use Rattle.std.specs.Prelude.{◌≡◌, IfOk, None};
ghost use Rattle.arr_tree.specs.Trees.{cut};
ghost use Rattle.arr_syntax.specs.Filling.{with_fields};
ghost use Rattle.arr_syntax.specs.Machine.{fresh, and_tree, with_tree, turns, whole, behind_cut, fill_number, fill_sign, fill};

use crate::node::literal;
use crate::state::{Field, Fields, Filled, Trees};
use arr_tokens::{Keyword, Sign, Token};
use arr_tree::{Cut, Expr, Lengths, Place, Steps, Type4};
use sqlite_items::{Boxed, Items};
use std::alloc::{AllocError, Global};

/// What a token makes of a field, or want of memory.
type Fill = Result<Filled, AllocError>;

impl Trees {
    /// These trees and one more.
    fn and(self, tree: Boxed<Expr>) -> Trees
        ensures { result ≡ and_tree self tree }
    {
        match self {
            Trees::None => Trees::One(tree),
            Trees::One(first) => Trees::Two(first, tree),
            Trees::Two(first, second) => Trees::Three(first, second, tree),
            Trees::Three(first, second, _third) => Trees::Three(first, second, tree),
        }
    }
}

impl Fields {
    /// Nothing is read.
    pub fn new(alloc: Global, at: Place) -> Fields
        ensures { result ≡ fresh at }
    {
        Fields {
            trees: Trees::None,
            number: 0,
            number_at: at,
            to: Type4::I64,
            equals: at,
            shape: Lengths {
                at,
                list: Items::new(alloc),
            },
            strides: Steps {
                at,
                list: Items::new(alloc),
            },
            cuts: Items::new(alloc),
        }
    }

    /// Adds one more tree.
    pub fn add(&mut self, tree: Boxed<Expr>)
        ensures { self.new ≡ with_tree self.old tree }
    {
        let trees = std::mem::replace(&mut self.trees, Trees::None);
        self.trees = trees.and(tree);
    }

    fn number(&mut self, alloc: Global, field: Field, n: u64, at: Place) -> Fill
        ensures { IfOk result (λ x. with_fields x self.new ≡ fill_number field n at self.old) }
    {
        match field {
            Field::Number => {
                self.number = n;
                self.number_at = at;
                Ok(Filled::Over)
            }
            Field::Literal => {
                self.add(literal(alloc, at, false, n)?);
                Ok(Filled::Over)
            }
            Field::Size(minus_at) => {
                self.add(literal(alloc, minus_at, true, n)?);
                Ok(Filled::Over)
            }
            Field::Length => {
                self.shape.list.push(n)?;
                Ok(Filled::Turns(Field::MoreLengths))
            }
            Field::Stride => {
                self.strides.list.push(i128::from(n))?;
                Ok(Filled::Turns(Field::MoreStrides))
            }
            Field::NegativeStride => {
                self.strides.list.push(-i128::from(n))?;
                Ok(Filled::Turns(Field::MoreStrides))
            }
            _ => Ok(Filled::Stuck),
        }
    }

    fn sign(&mut self, field: Field, sign: Sign, at: Place) -> Filled
        ensures { with_fields result self.new ≡ fill_sign field sign at self.old }
    {
        match (field, sign) {
            (Field::Open, Sign::Open)
            | (Field::Close | Field::TypeOrClose, Sign::Close)
            | (Field::Comma, Sign::Comma)
            | (Field::MoreLengths | Field::MoreStrides, Sign::CloseIndex) => Filled::Over,
            (Field::Equals, Sign::Assign) => {
                self.equals = at;
                Filled::Over
            }
            (Field::Shape, Sign::OpenIndex) => {
                self.shape.at = at;
                Filled::Turns(Field::Length)
            }
            (Field::Strides, Sign::OpenIndex) => {
                self.strides.at = at;
                Filled::Turns(Field::Stride)
            }
            _ => Filled::Stuck,
        }
    }

    /// What a token makes of these where this field is wanted.
    pub fn fill(&mut self, alloc: Global, field: Field, token: &Token, at: Place) -> Fill
        ensures { IfOk result (λ x. with_fields x self.new ≡ fill field token.now at self.old) }
    {
        if let Some(next) = turns(field, token, at) {
            return Ok(Filled::Turns(next));
        }
        if let Some(cut) = whole(field) {
            self.cuts.push(cut)?;
            return Ok(behind(token));
        }
        match (field, token) {
            (field, Token::Number(n)) => self.number(alloc, field, *n, at),
            (field, Token::Sign(sign)) => Ok(self.sign(field, *sign, at)),
            (Field::LastType, Token::Keyword(Keyword::Type(to))) => {
                self.to = *to;
                Ok(Filled::Turns(Field::Close))
            }
            _ => Ok(Filled::Stuck),
        }
    }
}

/// What a token makes of the end of a slice.
fn behind(token: &Token) -> Filled
    ensures { result ≡ behind_cut token.now }
{
    match token {
        Token::Sign(Sign::Comma) => Filled::Turns(Field::Start),
        Token::Sign(Sign::CloseIndex) => Filled::Over,
        _ => Filled::Stuck,
    }
}

/// A slice of which nothing is read, or its start.
fn from(start: Option<u64>) -> Cut
    ensures { result ≡ cut start None None }
{
    Cut {
        start,
        stop: None,
        step: None,
    }
}

/// What a field goes on to whose token is not kept elsewhere.
fn turns(field: Field, token: &Token, at: Place) -> Option<Field>
    ensures { result ≡ turns field token.now at }
{
    match (field, token) {
        (Field::TypeOrClose, Token::Sign(Sign::Comma)) => Some(Field::LastType),
        (Field::Literal, Token::Sign(Sign::Minus)) => Some(Field::Size(at)),
        (Field::MoreLengths, Token::Sign(Sign::Comma)) => Some(Field::Length),
        (Field::Stride, Token::Sign(Sign::Minus)) => Some(Field::NegativeStride),
        (Field::MoreStrides, Token::Sign(Sign::Comma)) => Some(Field::Stride),
        (Field::Start, Token::Number(n)) => Some(Field::Colon(from(Some(*n)))),
        (Field::Start, Token::Sign(Sign::Colon)) => Some(Field::Stop(from(None))),
        (Field::Colon(cut), Token::Sign(Sign::Colon)) => Some(Field::Stop(cut)),
        (Field::Stop(cut), Token::Number(n)) => Some(Field::AfterStop(Cut {
            stop: Some(*n),
            ..cut
        })),
        (Field::Stop(cut), Token::Sign(Sign::Colon)) => {
            Some(Field::Step(Cut { stop: None, ..cut }))
        }
        (Field::AfterStop(cut), Token::Sign(Sign::Colon)) => Some(Field::Step(cut)),
        (Field::Step(cut), Token::Number(n)) => Some(Field::AfterStep(Cut {
            step: Some(i128::from(*n)),
            ..cut
        })),
        (Field::Step(cut), Token::Sign(Sign::Minus)) => Some(Field::NegativeStep(cut)),
        (Field::NegativeStep(cut), Token::Number(n)) => Some(Field::AfterStep(Cut {
            step: Some(-i128::from(*n)),
            ..cut
        })),
        _ => None,
    }
}

/// The slice that may end at this field.
fn whole(field: Field) -> Option<Cut>
    ensures { result ≡ whole field }
{
    match field {
        Field::Stop(cut) => Some(Cut { stop: None, ..cut }),
        Field::Step(cut) => Some(Cut { step: None, ..cut }),
        Field::AfterStop(cut) | Field::AfterStep(cut) => Some(cut),
        _ => None,
    }
}
