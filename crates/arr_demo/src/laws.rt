//! Laws of the demo's scripts. Each function does nothing: its contract is the law.
ghost use Rattle.arr_demo.specs.Laws.{ScriptsAreAccepted};

/// The script of every number is accepted: it has no more bytes than a script may have, its tokens are a script without a fault, and no statement
/// is refused (docs/DEMO.md, "The script", and docs/LANGUAGE.md, "Refusals").
pub fn scripts_are_accepted()
    ensures { ScriptsAreAccepted }
{}
