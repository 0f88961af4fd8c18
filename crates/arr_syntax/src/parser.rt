ghost use Rattle.std.specs.Prelude.{◌≡◌, ◌≤◌, length, List, IfOk, IfErr, MatchResult};
ghost use Rattle.arr_tree.specs.declared.refusal.Refusal.{Refusal};
ghost use Rattle.arr_tree.specs.declared.tree.Statement.{Statement};
ghost use Rattle.arr_tokens.specs.Tokens.{tokens};
ghost use Rattle.arr_syntax.specs.Refused.{IsRefused, IsScript, IfRefused};

use crate::reader::Reader;
use crate::state::State;
use arr_tokens::Text;
use arr_tree::{ParseFault, Place, Script, Statement};
use sqlite_items::Items;
use std::alloc::Global;

/// The statements of a text, token by token, or its refusal.
fn statements(alloc: Global, bytes: &[u8]) -> Result<Items<Statement>, ParseFault>
    requires { length bytes.now ≤ 1048576 }
    ensures { MatchResult result (IsScript (tokens bytes.now)) (λ e. IfRefused e (IsRefused (tokens bytes.now))) }
{
    let mut text = Text {
        rest: bytes,
        at: Place { line: 1, column: 1 },
    };
    let mut reader = Reader {
        alloc,
        statements: Items::new(alloc),
        depth: 0,
        used: 0,
    };
    let mut state = State::Start;
    'tokens: loop {
        let Ok(item) = text.next(alloc) else {
            drop(state);
            return Err(ParseFault::NoMemory);
        };
        let is_last = item.token.is_end();
        state = match reader.read(state, item) {
            Ok(next) => next,
            Err(fault) => return Err(fault),
        };
        if is_last {
            drop(state);
            return Ok(reader.statements);
        }
    }
}

/// The script that a text of bytes spells.
///
/// The text is read token by token; its grammar, its tokens and the refusals are in docs/LANGUAGE.md. `Refused` comes
/// exactly where a token of the text has a fault; it has the place of the first such token, and of the faults that fit
/// that token the one that stands first in `Kind`. `NoMemory` comes where memory is wanting. The text has at most
/// 1,048,576 bytes.
pub fn parse(alloc: Global, bytes: &[u8]) -> Result<Script, ParseFault>
    requires { length bytes.now ≤ 1048576 }
    ensures found { IfOk result (λ v. IsScript (tokens bytes.now) v.statements) }
    ensures fault { IfErr result (λ e. IfRefused e (IsRefused (tokens bytes.now))) }
    ensures script { (ss : List Statement) → IsScript (tokens bytes.now) ss → MatchResult result (λ v. v.statements ≡ ss) (λ e. e ≡ ParseFault.NoMemory) }
    ensures refused { (r : Refusal) → IsRefused (tokens bytes.now) r → MatchResult result (λ v. ⊥) (λ e. IfRefused e (λ q. q ≡ r)) }
{
    match statements(alloc, bytes) {
        Ok(statements) => Ok(Script { statements }),
        Err(fault) => Err(fault),
    }
}
