use crate::refusal::Place;
use sqlite_items::{Boxed, Items};

/// A whole script: its statements in order. Lines without a statement leave nothing.
#[derive(Debug, Drop)]
pub struct Script {
    pub statements: Items<Statement>,
}

#[derive(Debug, Drop)]
pub struct Statement {
    pub form: Form,
}

#[derive(Debug, Drop)]
pub enum Form {
    /// `print value`
    Print(Expr),
    /// `del name`
    Del {
        name: Word,
    },
    /// `flush`
    Flush,
    /// `name = value`
    Bind {
        name: Word,
        value: Expr,
    },
    /// `target = value`, where the target is a name with at least one index, or a view call
    Assign {
        target: Expr,
        equals: Place,
        value: Expr,
    },
    /// `name = gather(source, index)`, with the place of the word `gather`
    Gather {
        name: Word,
        at: Place,
        source: Expr,
        index: Expr,
    },
    /// `scatter(target, index, values)`, with the place of the word `scatter`; the target is a name or a view call, and any indices
    Scatter {
        at: Place,
        target: Expr,
        index: Expr,
        values: Expr,
    },
}

/// A name, and the place of its first byte.
#[derive(Debug, Drop)]
pub struct Word {
    pub text: Items<u8>,
    pub at: Place,
}

/// An expression. Brackets leave no trace in it.
///
/// `at` is the place of the binary or unary sign or of `**`, of the word of a call or a name, of the `[` of an index,
/// or of the first token of a literal.
#[derive(Debug, Drop)]
#[cycle(tree)]
pub struct Expr {
    pub at: Place,
    pub form: ExprForm,
}

#[derive(Debug, Drop)]
#[cycle(tree)]
pub enum ExprForm {
    /// The number `size`, or its negative.
    Literal {
        negative: bool,
        size: u64,
    },
    /// A name where a value is wanted.
    Name(Word),
    /// `~` (Invert) and `abs` (Absolute).
    Unary {
        code: Code16,
        of: Boxed<Expr>,
    },
    /// A binary sign other than `**`, `minimum` or `maximum`: one of the first 18 codes.
    Binary {
        code: Code16,
        left: Boxed<Expr>,
        right: Boxed<Expr>,
    },
    /// `of ** exponent`
    Power {
        of: Boxed<Expr>,
        exponent: u64,
    },
    /// A reduction or a scan along an axis counted from 0: one of the last six codes.
    Fold {
        code: Code16,
        of: Boxed<Expr>,
        axis: u64,
        axis_at: Place,
    },
    /// A type's name used as a call.
    Cast {
        to: Type4,
        of: Boxed<Expr>,
    },
    /// `range(count)` or `range(count, type)`; without a type it is `I64`.
    Range {
        count: u64,
        count_at: Place,
        to: Type4,
    },
    /// `full(shape, literal, type)`
    Full {
        shape: Lengths,
        literal: Boxed<Expr>,
        to: Type4,
    },
    /// `of[slices]`
    Index {
        of: Boxed<Expr>,
        slices: Items<Cut>,
    },
    Broadcast {
        of: Boxed<Expr>,
        shape: Lengths,
    },
    Transpose {
        of: Boxed<Expr>,
    },
    Reshape {
        of: Boxed<Expr>,
        shape: Lengths,
    },
    /// `strided(of, start, shape, strides)`, start and strides in elements.
    Strided {
        of: Boxed<Expr>,
        start: u64,
        shape: Lengths,
        strides: Steps,
    },
}

/// A list of lengths in brackets, as it was written, and the place of its `[`.
#[derive(Debug, Drop)]
pub struct Lengths {
    pub at: Place,
    pub list: Items<u64>,
}

/// A list of strides in brackets, as it was written, and the place of its `[`.
#[derive(Debug, Drop)]
pub struct Steps {
    pub at: Place,
    pub list: Items<i128>,
}

/// One slice `start:stop:step` of an index; each part may be absent.
#[derive(Clone, Copy, PartialEq, Eq, Debug)]
pub struct Cut {
    pub start: Option<u64>,
    pub stop: Option<u64>,
    pub step: Option<i128>,
}

/// The four types of elements.
#[derive(Clone, Copy, PartialEq, Eq, Debug)]
pub enum Type4 {
    U8,
    I32,
    I64,
    U64,
}

/// The codes that a sign or a word of an expression stands for.
#[derive(Clone, Copy, PartialEq, Eq, Debug)]
pub enum Code16 {
    Add,
    Subtract,
    Multiply,
    Divide,
    Mod,
    Maximum,
    Minimum,
    BitwiseAnd,
    BitwiseOr,
    BitwiseXor,
    LeftShift,
    RightShift,
    Equal,
    NotEqual,
    Less,
    LessEqual,
    Greater,
    GreaterEqual,
    Absolute,
    Invert,
    AddReduce,
    MultiplyReduce,
    MinimumReduce,
    MaximumReduce,
    AddAccumulate,
    MultiplyAccumulate,
}
