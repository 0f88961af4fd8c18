//! The whole program: from the words and the bytes that come in to the bytes that go out.
//!
//! [`serve`] does all that the program does. Its contract is one relation, `Serves` in specs/Answers.antt: which status and which
//! bytes a command may answer to a script, and what the store is then, wherever the writing ended. The arrays in it are the eager
//! arrays of arr_elab, where each operation runs when its statement is reached and nothing is freed or put off; their lines are those of
//! arr_listing. That the program records lists, with gathers and scatters between them, frees bases, rewrites and plans
//! shows in the store, where a write failed, and in the plan lines and certificates, where they are asked for (specs/Pieces.antt). What is
//! chosen for a list is a legal plan; that of the planner best comes with a bound that no legal plan costs less than and a certificate
//! that the checker accepts, and it costs the bound or the budget was spent (specs/Chosen.antt).
//!
//! [`flush_once`] runs one list: it is rewritten, planned, listed, run block by block, and printed (`Reports` in specs/Flushes.antt). The counters of the
//! store rise by what the blocks of the plan that was chosen read, write and make (`Moves`), and so over a whole run (`rise_of` in specs/Pieces.antt).
//!
//! `demo N` runs a script of its own with best, and writes what each plan costs and moves, and the plain sum of each eager array (`demo_text` in
//! specs/Answers.antt, of the lines in specs/Demo.antt).
//!
//! A fault of reading or writing is answered only where the source or the sink counted one in this call (clause `blames`), and an
//! accepted script is not refused (`complete`). Want of memory alone may come anywhere. What follows from the relation for a caller
//! stands in `laws.rt`.
#![tactic(auto)]

mod checking;
mod choice;
mod demo;
mod flush;
mod head;
mod laws;
mod parts;
mod planning;
mod program;
mod script;
mod summary;
mod texts;
mod words;

pub use choice::{Choice, Fuse, Listing};
pub use flush::{Report, RunFault, flush_once};
pub use laws::{
    checks_certify, faults_are_counted, moves_little, parts_are_counted, runs_check, runs_go_on,
    statuses_say,
};
pub use program::serve;
pub use words::Command;
