ghost use Rattle.std.specs.Prelude.{◌≡◌, IfOk};
ghost use Rattle.arr_tree.specs.Trees.{literal_at};
ghost use Rattle.arr_syntax.specs.Machine.{array_row, rule_row, row_of, level_of, wanted_in, code_of, form_of, form_of_one, view_form, tree_of, head_form, stated};

use crate::parts::Parts;
use crate::state::{Field, Fields, Head, Mode, Node, Part, Rule, Trees};
use arr_tokens::View;
use arr_tree::{Code16, Expr, ExprForm, Form, Place, Statement};
use sqlite_items::Boxed;
use std::alloc::{AllocError, Global};

/// A box, or want of memory.
type Made<T> = Result<Boxed<T>, AllocError>;

const OPEN: Part = Part::Field(Field::Open);

const CLOSE: Part = Part::Field(Field::Close);

const COMMA: Part = Part::Field(Field::Comma);

pub const EQUALS: Part = Part::Field(Field::Equals);

const NUMBER: Part = Part::Field(Field::Number);

const SHAPE: Part = Part::Field(Field::Shape);

const STRIDES: Part = Part::Field(Field::Strides);

pub const VALUE: Part = Part::Tree(Mode::Value);

const PLACE: Part = Part::Tree(Mode::Place);

/// The row of a view call, whose array is a value or a place.
fn array_row(mode: Mode, view: View) -> Parts
    ensures { result ≡ array_row mode view }
{
    match (mode, view) {
        (Mode::Value, View::Transpose) => Parts::new(&[OPEN, VALUE, CLOSE]),
        (Mode::Place, View::Transpose) => Parts::new(&[OPEN, PLACE, CLOSE]),
        (Mode::Value, View::Broadcast | View::Reshape) => {
            Parts::new(&[OPEN, VALUE, COMMA, SHAPE, CLOSE])
        }
        (Mode::Place, View::Broadcast | View::Reshape) => {
            Parts::new(&[OPEN, PLACE, COMMA, SHAPE, CLOSE])
        }
        (Mode::Value, View::Strided) => Parts::new(&[
            OPEN, VALUE, COMMA, NUMBER, COMMA, SHAPE, COMMA, STRIDES, CLOSE,
        ]),
        (Mode::Place, View::Strided) => Parts::new(&[
            OPEN, PLACE, COMMA, NUMBER, COMMA, SHAPE, COMMA, STRIDES, CLOSE,
        ]),
    }
}

impl Rule {
    /// How the expression is written, from its first tree or from behind its first token on.
    fn row(self) -> Parts
        ensures { result ≡ rule_row self }
    {
        match self {
            Rule::Bracket => Parts::new(&[VALUE, CLOSE]),
            Rule::Negative | Rule::Power => Parts::new(&[NUMBER]),
            Rule::Invert | Rule::Operand { .. } => Parts::new(&[VALUE]),
            Rule::Index => Parts::new(&[Part::Field(Field::Start)]),
            Rule::Range => Parts::new(&[OPEN, NUMBER, Part::Field(Field::TypeOrClose)]),
            Rule::Full => Parts::new(&[
                OPEN,
                SHAPE,
                COMMA,
                Part::Field(Field::Literal),
                COMMA,
                Part::Field(Field::LastType),
            ]),
            Rule::Fold(_) => Parts::new(&[OPEN, VALUE, COMMA, NUMBER, CLOSE]),
            Rule::Absolute | Rule::Cast(_) => Parts::new(&[OPEN, VALUE, CLOSE]),
            Rule::Pair(_) => Parts::new(&[OPEN, VALUE, COMMA, VALUE, CLOSE]),
            Rule::View(mode, view) => array_row(mode, view),
        }
    }

    /// The level of the expression. A comparison doesn't chain.
    pub fn level(self) -> u8
        ensures { result ≡ level_of self }
    {
        match self {
            Rule::Invert | Rule::Power => 2,
            Rule::Operand { level, .. } => { if level == 8 { 9 } else { level } }
            _ => 0,
        }
    }

    /// The code of a sign or a word that has one.
    fn code(self) -> Code16
        ensures { result ≡ code_of self }
    {
        match self {
            Rule::Operand { code, .. } | Rule::Fold(code) | Rule::Pair(code) => code,
            Rule::Invert => Code16::Invert,
            _ => Code16::Absolute,
        }
    }

    /// The expression over one tree: that of a rule named here, or else of a sign or a word with a code.
    fn form_of_one(self, of: Boxed<Expr>, fields: Fields) -> ExprForm
        ensures { result ≡ form_of_one self of fields }
    {
        match self {
            Rule::Index => ExprForm::Index {
                of,
                slices: fields.cuts,
            },
            Rule::Power => ExprForm::Power {
                of,
                exponent: fields.number,
            },
            Rule::Full => ExprForm::Full {
                shape: fields.shape,
                literal: of,
                to: fields.to,
            },
            Rule::Fold(code) => ExprForm::Fold {
                code,
                of,
                axis: fields.number,
                axis_at: fields.number_at,
            },
            Rule::Cast(to) => ExprForm::Cast { to, of },
            Rule::View(_, view) => view_form(view, of, fields),
            _ => ExprForm::Unary {
                code: self.code(),
                of,
            },
        }
    }

    /// The expression by its number of trees. With none it is a range, or else a literal.
    fn form(self, trees: Trees, fields: Fields) -> ExprForm
        ensures { result ≡ form_of self trees fields }
    {
        match (trees, self) {
            (Trees::None, Rule::Range) => ExprForm::Range {
                count: fields.number,
                count_at: fields.number_at,
                to: fields.to,
            },
            (Trees::None, _) => ExprForm::Literal {
                negative: true,
                size: fields.number,
            },
            (Trees::One(of), _) => self.form_of_one(of, fields),
            (Trees::Two(left, right), _) => ExprForm::Binary {
                code: self.code(),
                left,
                right,
            },
            (Trees::Three(of, _second, _third), _) => self.form_of_one(of, fields),
        }
    }

    /// The expression whose row is read.
    pub fn build(self, alloc: Global, at: Place, mut fields: Fields) -> Made<Expr>
        ensures { IfOk result (λ t. t ≡ tree_of self at fields) }
    {
        match (self, std::mem::replace(&mut fields.trees, Trees::None)) {
            (Rule::Bracket, Trees::One(of)) => Ok(of),
            (_, trees) => tree(alloc, at, self.form(trees, fields)),
        }
    }
}

fn view_form(view: View, of: Boxed<Expr>, fields: Fields) -> ExprForm
    ensures { result ≡ view_form view of fields }
{
    match view {
        View::Broadcast => ExprForm::Broadcast {
            of,
            shape: fields.shape,
        },
        View::Transpose => ExprForm::Transpose { of },
        View::Reshape => ExprForm::Reshape {
            of,
            shape: fields.shape,
        },
        View::Strided => ExprForm::Strided {
            of,
            start: fields.number,
            shape: fields.shape,
            strides: fields.strides,
        },
    }
}

impl Head {
    /// The statement over its trees. Without them it is `flush`.
    fn form(self, at: Place, equals: Place, trees: Trees) -> Form
        ensures { result ≡ head_form self at equals trees }
    {
        match (self, trees) {
            (Head::Print, Trees::One(value)) => Form::Print(value.into_inner()),
            (Head::Bind(name), Trees::One(value)) => Form::Bind {
                name,
                value: value.into_inner(),
            },
            (Head::Assign, Trees::Two(target, value)) => Form::Assign {
                target: target.into_inner(),
                equals,
                value: value.into_inner(),
            },
            (Head::Gather(name), Trees::Two(source, index)) => Form::Gather {
                name,
                at,
                source: source.into_inner(),
                index: index.into_inner(),
            },
            (Head::Scatter, Trees::Three(target, index, values)) => Form::Scatter {
                at,
                target: target.into_inner(),
                index: index.into_inner(),
                values: values.into_inner(),
            },
            _ => Form::Flush,
        }
    }

    /// The statement whose row is read.
    pub fn build(self, alloc: Global, at: Place, fields: Fields) -> Made<Statement>
        ensures { IfOk result (λ s. s ≡ stated self at fields) }
    {
        statement(alloc, self.form(at, fields.equals, fields.trees))
    }
}

impl Node {
    /// The parts that are to be read, in order.
    pub fn row(&self) -> Parts
        ensures { result ≡ row_of self.now }
    {
        match self {
            Node::Tree(rule) => rule.row(),
            Node::Statement(Head::Print | Head::Bind(_)) => Parts::new(&[VALUE]),
            Node::Statement(Head::Assign) => Parts::new(&[PLACE, EQUALS, VALUE]),
            Node::Statement(Head::Gather(_)) => Parts::new(&[OPEN, VALUE, COMMA, VALUE, CLOSE]),
            Node::Statement(Head::Scatter) => {
                Parts::new(&[OPEN, PLACE, COMMA, VALUE, COMMA, VALUE, CLOSE])
            }
        }
    }

    /// The level of a tree in the row.
    pub fn wanted(&self, mode: Mode) -> u8
        ensures { result ≡ wanted_in self.now mode }
    {
        match (self, mode) {
            (_, Mode::Place) => 1,
            (Node::Tree(Rule::Invert), Mode::Value) => 2,
            (Node::Tree(Rule::Operand { level, .. }), Mode::Value) => *level,
            _ => 9,
        }
    }
}

/// A tree in a box of its own.
pub fn tree(alloc: Global, at: Place, form: ExprForm) -> Made<Expr>
    ensures { IfOk result (λ t. t ≡ record { at = at; form = form }) }
{
    Boxed::new(alloc, Expr { at, form })
}

/// A literal.
pub fn literal(alloc: Global, at: Place, negative: bool, size: u64) -> Made<Expr>
    ensures { IfOk result (λ t. t ≡ literal_at at negative size) }
{
    tree(alloc, at, ExprForm::Literal { negative, size })
}

/// A statement in a box of its own.
pub fn statement(alloc: Global, form: Form) -> Made<Statement>
    ensures { IfOk result (λ s. s ≡ record { form = form }) }
{
    Boxed::new(alloc, Statement { form })
}
