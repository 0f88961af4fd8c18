ghost use Rattle.std.specs.Prelude.{◌≡◌, ◌∷◌, [], IfOk, ◌<◌, ◌≤◌};
ghost use Rattle.arr_tree.specs.Trees.{name_of, word_at};
ghost use Rattle.arr_syntax.specs.Machine.{behind, level, rule_at, ends, row, resume, opened, opens, begins, take, goes, fits, give, target, starts, named, binds, deletes, ended, step, fresh, with_tree};

use crate::node::{EQUALS, VALUE, literal, statement, tree};
use crate::parts::Parts;
use crate::stack::Stack;
use crate::state::{Fields, Filled, Frame, Head, Mode, Move, Node, Part, Row, Rule, State};
use arr_tokens::{Item, Keyword, Sign, Token};
use arr_tree::{Code16, Expr, ExprForm, Form, Place, Statement, Word};
use sqlite_items::Boxed;
use std::alloc::{AllocError, Global};

/// A move, or want of memory.
type Moved = Result<Move, AllocError>;

/// The rule of a sign behind a tree.
fn behind(sign: Sign) -> Option<Rule>
    ensures { result ≡ behind sign }
{
    let (level, code) = match sign {
        Sign::OpenIndex => return Some(Rule::Index),
        Sign::Power => return Some(Rule::Power),
        Sign::Star => (2, Code16::Multiply),
        Sign::Slash => (2, Code16::Divide),
        Sign::Percent => (2, Code16::Mod),
        Sign::Plus => (3, Code16::Add),
        Sign::Minus => (3, Code16::Subtract),
        Sign::LeftShift => (4, Code16::LeftShift),
        Sign::RightShift => (4, Code16::RightShift),
        Sign::And => (5, Code16::BitwiseAnd),
        Sign::Xor => (6, Code16::BitwiseXor),
        Sign::Or => (7, Code16::BitwiseOr),
        Sign::Equal => (8, Code16::Equal),
        Sign::NotEqual => (8, Code16::NotEqual),
        Sign::Less => (8, Code16::Less),
        Sign::LessEqual => (8, Code16::LessEqual),
        Sign::Greater => (8, Code16::Greater),
        Sign::GreaterEqual => (8, Code16::GreaterEqual),
        _ => return None,
    };
    Some(Rule::Operand { level, code })
}

/// The level at which a token goes on behind a tree; 9 where it does not.
fn level(token: &Token) -> u8
    ensures { result ≡ level token.now }
{
    let Token::Sign(sign) = token else {
        return 9;
    };
    match behind(*sign) {
        Some(Rule::Index) => 0,
        Some(Rule::Power) => 1,
        Some(Rule::Operand { level, .. }) => level,
        _ => 9,
    }
}

/// The rule whose first token this is.
fn rule_at(mode: Mode, token: &Token) -> Option<Rule>
    ensures { result ≡ rule_at mode token.now }
{
    match (mode, token) {
        (Mode::Value, Token::Sign(Sign::Minus)) => Some(Rule::Negative),
        (Mode::Value, Token::Sign(Sign::Open)) => Some(Rule::Bracket),
        (Mode::Value, Token::Sign(Sign::Not)) => Some(Rule::Invert),
        (Mode::Value, Token::Keyword(Keyword::Range)) => Some(Rule::Range),
        (Mode::Value, Token::Keyword(Keyword::Full)) => Some(Rule::Full),
        (Mode::Value, Token::Keyword(Keyword::Fold(code))) => Some(Rule::Fold(*code)),
        (Mode::Value, Token::Keyword(Keyword::Absolute)) => Some(Rule::Absolute),
        (Mode::Value, Token::Keyword(Keyword::Pair(code))) => Some(Rule::Pair(*code)),
        (Mode::Value, Token::Keyword(Keyword::Type(to))) => Some(Rule::Cast(*to)),
        (mode, Token::Keyword(Keyword::View(view))) => Some(Rule::View(mode, *view)),
        _ => None,
    }
}

/// The end of a statement.
fn ends(token: Token, statement: Boxed<Statement>) -> Move
    ensures { result ≡ ends token statement }
{
    match token {
        Token::Line => Move::Emit(statement, State::Start),
        Token::End => Move::Emit(statement, State::Finished),
        _ => Move::Stuck,
    }
}

/// The next part of a row, or what the row makes up.
fn resume(alloc: Global, mut row: Row, stack: Stack) -> Moved
    ensures { IfOk result (λ m. m ≡ resume row.node row.at row.rest row.fields stack) }
{
    if let Some(part) = row.rest.next() {
        return Ok(Move::On(State::Fill { part, row, stack }));
    }
    let (at, fields) = (row.at, row.fields);
    match row.node {
        Node::Tree(rule) => Ok(Move::On(State::Have {
            level: rule.level(),
            tree: rule.build(alloc, at, fields)?,
            stack,
        })),
        Node::Statement(head) => {
            let statement = head.build(alloc, at, fields)?;
            Ok(Move::Emit(statement, State::Ended))
        }
    }
}

/// The row begins behind its first token.
fn opened(alloc: Global, node: Node, at: Place, fields: Fields, stack: Stack) -> Moved
    ensures { IfOk result (λ m. m ≡ opened node at fields stack) }
{
    let rest = node.row();
    let row = Row {
        node,
        at,
        rest,
        fields,
    };
    resume(alloc, row, stack)
}

fn opens(alloc: Global, rule: Option<Rule>, at: Place, fields: Fields, stack: Stack) -> Moved
    ensures { IfOk result (λ m. m ≡ opens rule at fields stack) }
{
    match rule {
        Some(rule) => opened(alloc, Node::Tree(rule), at, fields, stack),
        None => Ok(Move::Stuck),
    }
}

/// The first token of a tree.
fn begins(alloc: Global, mode: Mode, token: Token, at: Place, stack: Stack) -> Moved
    ensures { IfOk result (λ m. m ≡ begins mode token at stack) }
{
    let tree = match (mode, token) {
        (_, Token::Name(text)) => name_of(alloc, Word { text, at })?,
        (Mode::Value, Token::Number(size)) => literal(alloc, at, false, size)?,
        (mode, token) => {
            let rule = rule_at(mode, &token);
            return opens(alloc, rule, at, Fields::new(alloc, at), stack);
        }
    };
    Ok(Move::On(State::Have {
        level: 0,
        tree,
        stack,
    }))
}

fn name_of(alloc: Global, word: Word) -> Result<Boxed<Expr>, AllocError>
    ensures { IfOk result (λ t. t ≡ name_of word) }
{
    tree(alloc, word.at, ExprForm::Name(word))
}

/// A token at a part of a row.
fn take(alloc: Global, part: Part, mut row: Row, mut stack: Stack, item: Item) -> Moved
    ensures { IfOk result (λ m. m ≡ take row.node row.at part row.rest row.fields stack item) }
{
    match part {
        Part::Tree(mode) => {
            let level = row.node.wanted(mode);
            stack.push(Frame { row, level })?;
            begins(alloc, mode, item.token, item.at, stack)
        }
        Part::Field(field) => match row.fields.fill(alloc, field, &item.token, item.at) {
            Ok(Filled::Over) => resume(alloc, row, stack),
            Ok(Filled::Turns(field)) => {
                let part = Part::Field(field);
                Ok(Move::On(State::Fill { part, row, stack }))
            }
            Ok(Filled::Stuck) => {
                drop(row);
                Ok(Move::Stuck)
            }
            Err(fault) => {
                drop(row);
                Err(fault)
            }
        },
    }
}

/// A token that goes on behind a tree.
fn goes(alloc: Global, token: Token, at: Place, stack: Stack, tree: Boxed<Expr>) -> Moved
    ensures { IfOk result (λ m. m ≡ goes token at stack tree) }
{
    match token {
        Token::Sign(sign) => {
            let mut fields = Fields::new(alloc, at);
            fields.add(tree);
            opens(alloc, behind(sign), at, fields, stack)
        }
        _ => Ok(Move::Stuck),
    }
}

/// Whether a token goes on behind a tree of this level, below the level that is wanted.
fn fits(least: u8, token: &Token, wanted: u8) -> bool
    ensures { result ≡ fits least token.now wanted }
{
    let goes_at = level(token);
    least <= goes_at && goes_at < wanted
}

/// A token behind a tree of this level: it goes on there, or the innermost frame has its tree.
fn give(alloc: Global, mut stack: Stack, level_now: u8, tree: Boxed<Expr>, item: Item) -> Moved
    ensures { IfOk result (λ m. m ≡ give stack level_now tree item) }
{
    let mut tree = tree;
    let mut least = level_now;
    'frames: loop {
        let Some(frame) = stack.pop() else {
            return Ok(Move::Stuck);
        };
        if fits(least, &item.token, frame.level) {
            stack.push(frame)?;
            return goes(alloc, item.token, item.at, stack, tree);
        }
        let mut row = frame.row;
        row.fields.add(tree);
        if let Some(part) = row.rest.next() {
            return take(alloc, part, row, stack, item);
        }
        let (at, fields) = (row.at, row.fields);
        match row.node {
            Node::Statement(head) => {
                let statement = head.build(alloc, at, fields)?;
                return Ok(ends(item.token, statement));
            }
            Node::Tree(rule) => {
                least = rule.level();
                tree = rule.build(alloc, at, fields)?;
            }
        }
    }
}

/// A stack with the row of a statement alone, of which these parts are still to come behind a tree of this level.
fn alone(alloc: Global, head: Head, at: Place, rest: Parts, level: u8) -> Result<Stack, AllocError>
    ensures { IfOk result (λ s. s ≡ record { row = row (Node.Statement head) at rest (fresh at); level = level } ∷ []) }
{
    let row = Row {
        node: Node::Statement(head),
        at,
        rest,
        fields: Fields::new(alloc, at),
    };
    let mut stack = Stack::new(alloc);
    stack.push(Frame { row, level })?;
    Ok(stack)
}

/// A stack with the target of a statement alone.
fn target(alloc: Global, at: Place) -> Result<Stack, AllocError>
    ensures { IfOk result (λ s. s ≡ target at) }
{
    alone(alloc, Head::Assign, at, Parts::new(&[EQUALS, VALUE]), 1)
}

/// A statement of a row begins.
fn heads(alloc: Global, head: Head, at: Place) -> Moved
    ensures { IfOk result (λ m. m ≡ opened (Node.Statement head) at (fresh at) []) }
{
    let fields = Fields::new(alloc, at);
    opened(alloc, Node::Statement(head), at, fields, Stack::new(alloc))
}

/// The first token of a line.
fn starts(alloc: Global, token: Token, at: Place) -> Moved
    ensures { IfOk result (λ m. m ≡ starts token at) }
{
    match token {
        Token::Keyword(Keyword::Print) => heads(alloc, Head::Print, at),
        Token::Keyword(Keyword::Del) => Ok(Move::On(State::Delete)),
        Token::Keyword(Keyword::Flush) => {
            let statement = statement(alloc, Form::Flush)?;
            Ok(Move::Emit(statement, State::Ended))
        }
        Token::Keyword(Keyword::Scatter) => heads(alloc, Head::Scatter, at),
        Token::Keyword(Keyword::View(view)) => {
            let node = Node::Tree(Rule::View(Mode::Place, view));
            let stack = target(alloc, at)?;
            opened(alloc, node, at, Fields::new(alloc, at), stack)
        }
        Token::Name(text) => Ok(Move::On(State::Named(Word { text, at }))),
        other => Ok(ended(other)),
    }
}

/// The token behind a name at the beginning of a statement.
fn named(alloc: Global, token: Token, at: Place, name: Word) -> Moved
    ensures { IfOk result (λ m. m ≡ named token at name) }
{
    match token {
        Token::Sign(Sign::Assign) => Ok(Move::On(State::Bound(name))),
        Token::Sign(Sign::OpenIndex) => {
            let tree = name_of(alloc, name)?;
            let stack = target(alloc, at)?;
            let mut fields = Fields::new(alloc, at);
            fields.add(tree);
            opened(alloc, Node::Tree(Rule::Index), at, fields, stack)
        }
        _ => Ok(Move::Stuck),
    }
}

/// The token behind the `=` of a binding.
fn binds(alloc: Global, token: Token, at: Place, name: Word) -> Moved
    ensures { IfOk result (λ m. m ≡ binds token at name) }
{
    match token {
        Token::Keyword(Keyword::Gather) => heads(alloc, Head::Gather(name), at),
        _ => {
            let name_at = name.at;
            let stack = alone(alloc, Head::Bind(name), name_at, Parts::new(&[]), 9)?;
            begins(alloc, Mode::Value, token, at, stack)
        }
    }
}

fn deletes(alloc: Global, token: Token, at: Place) -> Moved
    ensures { IfOk result (λ m. m ≡ deletes token at) }
{
    match token {
        Token::Name(text) => {
            let name = Word { text, at };
            let statement = statement(alloc, Form::Del { name })?;
            Ok(Move::Emit(statement, State::Ended))
        }
        _ => Ok(Move::Stuck),
    }
}

/// The token behind a whole statement, or an empty line.
fn ended(token: Token) -> Move
    ensures { result ≡ ended token }
{
    match token {
        Token::Line => Move::On(State::Start),
        Token::End => Move::On(State::Finished),
        _ => Move::Stuck,
    }
}

/// What a token makes of a state.
pub fn step(alloc: Global, state: State, item: Item) -> Moved
    ensures { IfOk result (λ m. m ≡ step state item) }
{
    match state {
        State::Start => starts(alloc, item.token, item.at),
        State::Named(name) => named(alloc, item.token, item.at, name),
        State::Bound(name) => binds(alloc, item.token, item.at, name),
        State::Delete => deletes(alloc, item.token, item.at),
        State::Ended => Ok(ended(item.token)),
        State::Have { level, tree, stack } => give(alloc, stack, level, tree, item),
        State::Fill { part, row, stack } => take(alloc, part, row, stack, item),
        State::Finished => Ok(Move::Stuck),
    }
}
