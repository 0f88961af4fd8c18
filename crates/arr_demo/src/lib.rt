//! The script that the demo makes of a number (docs/DEMO.md).
//!
//! **The promise.** [`demo_script`] writes the script that the definition of the same name, in specs/Script.antt, gives of the number, or answers
//! want of memory. Every script is accepted ([`scripts_are_accepted`]).
#![tactic(auto)]

mod laws;
mod part;
mod script;

pub use laws::scripts_are_accepted;
pub use script::demo_script;
