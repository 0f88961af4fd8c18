use crate::parts::Parts;
use crate::stack::Stack;
use arr_tokens::View;
use arr_tree::{Code16, Cut, Expr, Lengths, Place, Statement, Steps, Type4, Word};
use sqlite_items::{Boxed, Items};

/// Where a tree is wanted: as a value, or as a place whose elements are named.
#[derive(Clone, Copy)]
pub enum Mode {
    Value,
    Place,
}

/// A form of an expression. A row of parts says how it is written, and the trees and fields that were read make it up.
#[derive(Clone, Copy)]
pub enum Rule {
    Bracket,
    /// The number behind a `-`.
    Negative,
    Invert,
    Index,
    Power,
    /// The right side of a sign of this level.
    Operand { level: u8, code: Code16 },
    Range,
    Full,
    Fold(Code16),
    Absolute,
    Cast(Type4),
    /// `minimum` and `maximum`
    Pair(Code16),
    View(Mode, View),
}

/// A form of a statement, as far as it has a value.
#[derive(Drop)]
pub enum Head {
    Print,
    Bind(Word),
    Assign,
    Gather(Word),
    Scatter,
}

/// What a row of parts makes up.
#[derive(Drop)]
pub enum Node {
    Tree(Rule),
    Statement(Head),
}

/// The trees of a row that were read so far.
#[derive(Drop)]
pub enum Trees {
    None,
    One(Boxed<Expr>),
    Two(Boxed<Expr>, Boxed<Expr>),
    Three(Boxed<Expr>, Boxed<Expr>, Boxed<Expr>),
}

/// What was read of a row so far.
#[derive(Drop)]
pub struct Fields {
    pub trees: Trees,
    pub number: u64,
    pub number_at: Place,
    pub to: Type4,
    /// The place of the `=`.
    pub equals: Place,
    pub shape: Lengths,
    pub strides: Steps,
    pub cuts: Items<Cut>,
}

/// A part of a row that is no tree, or what is still to come of it.
#[derive(Clone, Copy)]
pub enum Field {
    Open,
    Close,
    Comma,
    Equals,
    Number,
    /// `)`, or `,` and a type and `)`
    TypeOrClose,
    /// a type and `)`
    LastType,
    Literal,
    /// the number behind the `-` at this place
    Size(Place),
    Shape,
    Length,
    MoreLengths,
    Strides,
    Stride,
    NegativeStride,
    MoreStrides,
    /// a slice and what comes behind it up to `]`; the others hold what was read of a slice
    Start,
    Colon(Cut),
    Stop(Cut),
    AfterStop(Cut),
    Step(Cut),
    NegativeStep(Cut),
    AfterStep(Cut),
}

/// A part of a row.
#[derive(Clone, Copy)]
pub enum Part {
    Tree(Mode),
    Field(Field),
}

/// A row that is being read.
#[derive(Drop)]
pub struct Row {
    pub node: Node,
    pub at: Place,
    /// The parts that are still to come.
    pub rest: Parts,
    pub fields: Fields,
}

/// A row behind whose next tree the others stand, and the level of that tree.
#[derive(Drop)]
pub struct Frame {
    pub row: Row,
    pub level: u8,
}

/// Where the reading of a script stands. Who has no more use for it calls `drop`: a drop that no call makes is proved
/// leaf by leaf.
#[derive(Drop)]
pub enum State {
    /// At the beginning of a line.
    Start,
    /// Behind a name at the beginning of a statement.
    Named(Word),
    /// Behind the `=` after that name.
    Bound(Word),
    /// Behind `del`.
    Delete,
    /// Behind a whole statement.
    Ended,
    /// A tree of this level stands here.
    Have {
        level: u8,
        tree: Boxed<Expr>,
        stack: Stack,
    },
    /// A part of a row is wanted, and then the others.
    Fill {
        part: Part,
        row: Row,
        stack: Stack,
    },
    /// Behind the end.
    Finished,
}

/// What a token makes of a state.
#[derive(Drop)]
pub enum Move {
    /// The grammar has no place for it.
    Stuck,
    On(State),
    /// It ends this statement.
    Emit(Boxed<Statement>, State),
}

/// What a token makes of a field.
#[derive(Clone, Copy)]
pub enum Filled {
    Stuck,
    /// The field is over.
    Over,
    /// This is still to come of it.
    Turns(Field),
}
