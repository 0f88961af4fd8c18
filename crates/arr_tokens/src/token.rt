ghost use Rattle.std.specs.Prelude.{◌≡◌};
ghost use Rattle.arr_tokens.specs.Tokens.{is_end};

use arr_tree::{Code16, Place, Type4};
use sqlite_items::Items;

/// The signs, each a token of one or two bytes.
#[derive(Clone, Copy)]
pub enum Sign {
    Equal,
    NotEqual,
    LessEqual,
    GreaterEqual,
    LeftShift,
    RightShift,
    Power,
    Assign,
    Less,
    Greater,
    Plus,
    Minus,
    Star,
    Slash,
    Percent,
    And,
    Or,
    Xor,
    Not,
    Open,
    Close,
    OpenIndex,
    CloseIndex,
    Comma,
    Colon,
}

/// The calls that show an array's elements in another shape. They can stand as a target.
#[derive(Clone, Copy)]
pub enum View {
    Broadcast,
    Transpose,
    Reshape,
    Strided,
}

/// The reserved words.
#[derive(Clone, Copy)]
pub enum Keyword {
    Print,
    Del,
    Flush,
    Range,
    Full,
    /// `sum`, `prod`, `min`, `max`, `cumsum` and `cumprod`
    Fold(Code16),
    Absolute,
    /// `minimum` and `maximum`
    Pair(Code16),
    View(View),
    Type(Type4),
    Gather,
    Scatter,
}

#[derive(Drop)]
pub enum Token {
    Number(u64),
    /// A number above 18446744073709551615.
    Wide,
    Name(Items<u8>),
    /// A word of more than 64 bytes.
    Long,
    Keyword(Keyword),
    Sign(Sign),
    Line,
    End,
    /// A byte that begins no token.
    Bad,
}

impl Token {
    /// Whether it is the end of the text.
    pub fn is_end(&self) -> bool
        ensures { result ≡ is_end self.now }
    {
        matches!(self, Token::End)
    }
}

/// A token, and the place of its first byte.
#[derive(Drop)]
pub struct Item {
    pub token: Token,
    pub at: Place,
}
