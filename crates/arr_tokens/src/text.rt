ghost use Rattle.std.specs.Prelude.{◌≡◌, ◌∷◌, ℕ, ◌+◌, ◌-◌, ◌^◌, ◌<◌, ◌≤◌, length, Some, None, List, Option, IfOk, false};
ghost use Rattle.arr_tokens.specs.Tokens.{is_end, behind, digits, decimal, number_of, is_blank, is_letter, is_word_byte, word, named, reserved, word_of, sign_of_one, sign_of_two, sign_piece, piece, comment, beyond, place_behind, items_from};

use crate::token::{Item, Keyword, Sign, Token, View};
use arr_tree::{Code16, Place, Type4};
use sqlite_items::Items;
use std::alloc::{AllocError, Global};

fn is_blank(byte: u8) -> bool
    ensures { result ≡ is_blank byte }
{
    byte == b' ' || byte == b'\t' || byte == b'\r'
}

/// A letter or `_`.
fn is_letter(byte: u8) -> bool
    ensures { result ≡ is_letter byte }
{
    byte.is_ascii_uppercase() || byte.is_ascii_lowercase() || byte == b'_'
}

fn is_word_byte(byte: u8) -> bool
    ensures { result ≡ is_word_byte byte }
{
    is_letter(byte) || byte.is_ascii_digit()
}

/// How many digits stand in front.
fn digits(bytes: &[u8]) -> usize
    ensures { result ≡ length (digits bytes.now) }
{
    bytes.iter().take_while(|b| b.is_ascii_digit()).count()
}

/// How many bytes of a word stand in front.
fn word(bytes: &[u8]) -> usize
    ensures { result ≡ length (word bytes.now) }
{
    bytes.iter().take_while(|b| is_word_byte(**b)).count()
}

/// How many bytes stand before the next line feed.
fn comment(bytes: &[u8]) -> usize
    ensures { result ≡ length (comment bytes.now) }
{
    bytes.iter().take_while(|b| **b != b'\n').count()
}

/// The number that the digits spell, if it fits.
fn number(digits: &[u8]) -> Token
    ensures { result ≡ number_of (decimal 0 digits.now) }
{
    let mut value: u64 = 0;
    for b in digits {
        let digit = u64::from(b.saturating_sub(b'0'));
        let Some(tens) = value.checked_mul(10) else {
            return Token::Wide;
        };
        let Some(sum) = tens.checked_add(digit) else {
            return Token::Wide;
        };
        value = sum;
    }
    Token::Number(value)
}

/// The keyword, where the word is this text.
fn named(word: &[u8], text: &[u8], keyword: Keyword) -> Option<Keyword>
    ensures { result ≡ named word.now text.now keyword }
{
    if word == text { Some(keyword) } else { None }
}

fn reserved(word: &[u8]) -> Option<Keyword>
    ensures { result ≡ reserved word.now }
{
    named(word, b"print", Keyword::Print)
        .or(named(word, b"del", Keyword::Del))
        .or(named(word, b"flush", Keyword::Flush))
        .or(named(word, b"gather", Keyword::Gather))
        .or(named(word, b"scatter", Keyword::Scatter))
        .or(named(word, b"range", Keyword::Range))
        .or(named(word, b"full", Keyword::Full))
        .or(named(word, b"abs", Keyword::Absolute))
        .or(named(word, b"minimum", Keyword::Pair(Code16::Minimum)))
        .or(named(word, b"maximum", Keyword::Pair(Code16::Maximum)))
        .or(named(word, b"broadcast", Keyword::View(View::Broadcast)))
        .or(named(word, b"transpose", Keyword::View(View::Transpose)))
        .or(named(word, b"reshape", Keyword::View(View::Reshape)))
        .or(named(word, b"strided", Keyword::View(View::Strided)))
        .or(named(word, b"sum", Keyword::Fold(Code16::AddReduce)))
        .or(named(word, b"prod", Keyword::Fold(Code16::MultiplyReduce)))
        .or(named(word, b"min", Keyword::Fold(Code16::MinimumReduce)))
        .or(named(word, b"max", Keyword::Fold(Code16::MaximumReduce)))
        .or(named(word, b"cumsum", Keyword::Fold(Code16::AddAccumulate)))
        .or(named(word, b"cumprod", Keyword::Fold(Code16::MultiplyAccumulate)))
        .or(named(word, b"u8", Keyword::Type(Type4::U8)))
        .or(named(word, b"i32", Keyword::Type(Type4::I32)))
        .or(named(word, b"i64", Keyword::Type(Type4::I64)))
        .or(named(word, b"u64", Keyword::Type(Type4::U64)))
}

/// The longest word that is a name.
const LONGEST_NAME: usize = 64;

/// The token of a word.
fn word_of(alloc: Global, word: &[u8]) -> Result<Token, AllocError>
    ensures { IfOk result (λ t. t ≡ word_of word.now) }
{
    if let Some(keyword) = reserved(word) {
        return Ok(Token::Keyword(keyword));
    }
    if word.len() > LONGEST_NAME {
        return Ok(Token::Long);
    }
    Ok(Token::Name(Items::from_slice(alloc, word)?))
}

fn sign_of_one(byte: u8) -> Option<Sign>
    ensures { result ≡ sign_of_one byte }
{
    match byte {
        b'=' => Some(Sign::Assign),
        b'<' => Some(Sign::Less),
        b'>' => Some(Sign::Greater),
        b'+' => Some(Sign::Plus),
        b'-' => Some(Sign::Minus),
        b'*' => Some(Sign::Star),
        b'/' => Some(Sign::Slash),
        b'%' => Some(Sign::Percent),
        b'&' => Some(Sign::And),
        b'|' => Some(Sign::Or),
        b'^' => Some(Sign::Xor),
        b'~' => Some(Sign::Not),
        b'(' => Some(Sign::Open),
        b')' => Some(Sign::Close),
        b'[' => Some(Sign::OpenIndex),
        b']' => Some(Sign::CloseIndex),
        b',' => Some(Sign::Comma),
        b':' => Some(Sign::Colon),
        _ => None,
    }
}

/// The sign of two bytes, of which this is the first one.
fn sign_of_two(first: u8, behind: &[u8]) -> Option<Sign>
    ensures { result ≡ sign_of_two first behind.now }
{
    if behind.is_empty() {
        return None;
    }
    match (first, behind[0]) {
        (b'=', b'=') => Some(Sign::Equal),
        (b'!', b'=') => Some(Sign::NotEqual),
        (b'<', b'=') => Some(Sign::LessEqual),
        (b'>', b'=') => Some(Sign::GreaterEqual),
        (b'<', b'<') => Some(Sign::LeftShift),
        (b'>', b'>') => Some(Sign::RightShift),
        (b'*', b'*') => Some(Sign::Power),
        _ => None,
    }
}

fn sign_piece(first: u8, behind: &[u8]) -> (Option<Token>, usize)
    ensures what { result ≡ sign_piece first behind.now }
    ensures some { 0 < result.1 }
    ensures within { result.1 ≤ length behind.now + 1 }
{
    if let Some(sign) = sign_of_two(first, behind) {
        return (Some(Token::Sign(sign)), 2);
    }
    match sign_of_one(first) {
        Some(sign) => (Some(Token::Sign(sign)), 1),
        None => (Some(Token::Bad), 1),
    }
}

/// The token in front, none for a blank or a comment, and its length.
fn piece(alloc: Global, bytes: &[u8]) -> Result<(Option<Token>, usize), AllocError>
    requires { 0 < length bytes.now }
    ensures what { IfOk result (λ x. x ≡ piece bytes.now) }
    ensures some { IfOk result (λ x. 0 < x.1) }
    ensures within { IfOk result (λ x. x.1 ≤ length bytes.now) }
{
    let first = bytes[0];
    if first == b'\n' {
        return Ok((Some(Token::Line), 1));
    }
    if is_blank(first) {
        return Ok((None, 1));
    }
    if first == b'#' {
        return Ok((None, comment(bytes)));
    }
    if first.is_ascii_digit() {
        let size = digits(bytes);
        return Ok((Some(number(&bytes[..size])), size));
    }
    if is_letter(first) {
        let size = word(bytes);
        return Ok((Some(word_of(alloc, &bytes[..size])?), size));
    }
    Ok(sign_piece(first, &bytes[1..]))
}

fn beyond(at: Place, byte: u8) -> Place
    requires { (at.line + 1 < 2 ^ 32) × (at.column + 1 < 2 ^ 32) }
    ensures what { result ≡ beyond at byte }
    ensures line { result.line ≤ at.line + 1 }
    ensures column { result.column ≤ at.column + 1 }
{
    if byte == b'\n' {
        Place {
            line: at.line + 1,
            column: 1,
        }
    } else {
        Place {
            line: at.line,
            column: at.column + 1,
        }
    }
}

/// The place of the byte that follows these, where the first of them stands at `at`. Lines and columns count from 1, a column
/// in bytes, and a line feed ends its line (docs/LANGUAGE.md, "Tokens").
pub fn place_behind(at: Place, bytes: &[u8]) -> Place
    requires { (at.line + length bytes.now < 2 ^ 32) × (at.column + length bytes.now < 2 ^ 32) }
    ensures what { result ≡ place_behind at bytes.now }
    ensures line { result.line ≤ at.line + length bytes.now }
    ensures column { result.column ≤ at.column + length bytes.now }
{
    let mut place = at;
    for b in bytes {
        place = beyond(place, *b);
    }
    place
}

/// The bytes of a text that are still to be cut, and the place of the first of them.
#[derive(Drop)]
pub struct Text<'a> {
    pub rest: &'a [u8],
    pub at: Place,
    ghost fits: { (at.line + length rest.now < 2 ^ 32) × (at.column + length rest.now < 2 ^ 32) },
}

impl Text<'_> {
    /// The next token, which is the end where no byte is left.
    pub fn next(&mut self, alloc: Global) -> Result<Item, AllocError>
        ensures next { IfOk result (λ i. items_from 0 self.old.at self.old.rest.now ≡ i ∷ behind i (items_from 0 self.new.at self.new.rest.now)) }
        ensures shorter { IfOk result (λ i. is_end i.token ≡ false → length self.new.rest.now < length self.old.rest.now) }
    {
        'pieces: while !self.rest.is_empty() {
            let at = self.at;
            let (token, size) = piece(alloc, self.rest)?;
            let (front, behind) = self.rest.split_at(size);
            self.at = place_behind(at, front);
            self.rest = behind;
            if let Some(token) = token {
                return Ok(Item { token, at });
            }
        }
        Ok(Item {
            token: Token::End,
            at: self.at,
        })
    }
}
