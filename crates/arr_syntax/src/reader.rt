ghost use Rattle.std.specs.Prelude.{◌≡◌, ◌∷◌, ℕ, List, Ok, Err, MatchResult, IfOk};
ghost use Rattle.arr_tokens.specs.declared.token.Item.{Item};
ghost use Rattle.arr_syntax.specs.Run.{run, counted, opened, is_stuck, Refuses};

use crate::state::{Move, State};
use crate::step::step;
use arr_tokens::{Item, Sign, Token};
use arr_tree::{Kind, ParseFault, Refusal, Statement};
use sqlite_items::Items;
use std::alloc::Global;

/// How many brackets may be open.
const OPEN_LIMIT: u32 = 64;

/// How many tokens a statement may have.
const LENGTH_LIMIT: u32 = 1024;

/// The tokens of the statement behind this one, or what it is refused for whatever the grammar says.
fn counted(used: u32, token: &Token) -> Result<u32, Kind>
    ensures { result ≡ counted used token.now }
{
    match token {
        Token::Bad => Err(Kind::BadByte),
        Token::Wide => Err(Kind::NumberTooWide),
        Token::Long => Err(Kind::NameTooLong),
        Token::Line => Ok(0),
        Token::End => Ok(used),
        _ if used >= LENGTH_LIMIT => Err(Kind::StatementTooLong),
        _ => Ok(used + 1),
    }
}

/// The brackets that are open behind a token, or that it opens one too many.
fn opened(depth: u32, token: &Token) -> Result<u32, Kind>
    ensures { result ≡ opened depth token.now }
{
    match token {
        Token::Sign(Sign::Open | Sign::OpenIndex) if depth >= OPEN_LIMIT => Err(Kind::TooDeep),
        Token::Sign(Sign::Open | Sign::OpenIndex) => Ok(depth + 1),
        Token::Sign(Sign::Close | Sign::CloseIndex) => Ok(depth.saturating_sub(1)),
        _ => Ok(depth),
    }
}

impl Move {
    /// Whether the grammar has no place for the token.
    fn is_stuck(&self) -> bool
        ensures { result ≡ is_stuck self.now }
    {
        matches!(self, Move::Stuck)
    }
}

/// What was read of a script up to one of its tokens, but for the state there.
#[derive(Drop)]
pub struct Reader {
    pub alloc: Global,
    /// The statements that are whole.
    pub statements: Items<Statement>,
    /// The brackets that are open.
    pub depth: u32,
    /// The tokens of this statement.
    pub used: u32,
}

impl Reader {
    /// The fault of a bracket that opens too deep: the grammar has no place for it, or the depth.
    fn too_deep(&self, state: State, item: Item, kind: Kind) -> ParseFault
        requires counted { (n : ℕ) × (Ok n ≡ counted self.now.used item.token) }
        requires deep { Err kind ≡ opened self.now.depth item.token }
        ensures { (is : List Item) → Refuses result (run self.now.depth self.now.used self.now.statements state (item ∷ is)) }
    {
        let at = item.at;
        let Ok(moved) = step(self.alloc, state, item) else {
            return ParseFault::NoMemory;
        };
        let is_stuck = moved.is_stuck();
        drop(moved);
        if is_stuck {
            let kind = Kind::Unexpected;
            return ParseFault::Refused(Refusal { at, kind });
        }
        ParseFault::Refused(Refusal { at, kind })
    }

    /// The state behind the next token, or the refusal of that token.
    pub fn read(&mut self, state: State, item: Item) -> Result<State, ParseFault>
        ensures reads { (is : List Item) → MatchResult result
            (λ next. run self.old.depth self.old.used self.old.statements state (item ∷ is) ≡ run self.new.depth self.new.used self.new.statements next is)
            (λ e. Refuses e (run self.old.depth self.old.used self.old.statements state (item ∷ is))) }
        ensures last { IfOk result (λ next. item.token ≡ Token.End → next ≡ State.Finished) }
    {
        let at = item.at;
        let used = match counted(self.used, &item.token) {
            Ok(used) => used,
            Err(kind) => {
                drop(state);
                return Err(ParseFault::Refused(Refusal { at, kind }));
            }
        };
        let depth = match opened(self.depth, &item.token) {
            Ok(depth) => depth,
            Err(kind) => return Err(self.too_deep(state, item, kind)),
        };
        self.used = used;
        self.depth = depth;
        match step(self.alloc, state, item) {
            Ok(Move::Stuck) => {
                let kind = Kind::Unexpected;
                Err(ParseFault::Refused(Refusal { at, kind }))
            }
            Ok(Move::On(state)) => Ok(state),
            Ok(Move::Emit(statement, state)) => match self.statements.push(statement.into_inner()) {
                Ok(()) => Ok(state),
                Err(_) => {
                    drop(state);
                    Err(ParseFault::NoMemory)
                }
            },
            Err(_) => Err(ParseFault::NoMemory),
        }
    }
}
