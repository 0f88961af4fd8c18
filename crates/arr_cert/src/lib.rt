//! Certificates as text, and proofs, which are texts of certificates.
//!
//! The promise: `write` appends the text of a certificate, a line for each record, or a front of it where a write fails, and takes no
//! memory; no two certificates have one text (`texts_differ`). A `Reader` gives the records of a proof one after another, each with its
//! line, and keeps one line and one piece of it. Each proof is read as something, and in one way (`proofs_are_read`); the text of a
//! certificate is read as its records (`texts_read_back`). The records are those of arr_law.
//!
//! The definitions, in `specs/`: `Texts` (how records and certificates are written, and which may be), `Spelling` (which record a line
//! spells), `Reading` (lines, and what they are read as), `Examples`, computed, `Unread` and `Proofs` (what a contract sees of a
//! reader), `Laws`, `Back`; `Wrote` and `Spelled`, which private calls speak of. `docs/CERTIFICATES.md` states the text and its reading in
//! words.
#![tactic(auto)]

mod item;
mod laws;
mod pieces;
mod reader;
mod spelling;
mod writing;

pub use arr_law::{Certificate, Charge, Charges, OpList, Places, Record, Records};
pub use item::{CheckFault, Item};
pub use laws::{proofs_are_read, texts_differ, texts_read_back};
pub use reader::Reader;
pub use writing::write;
