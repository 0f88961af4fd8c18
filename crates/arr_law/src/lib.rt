//! What a list of operations is to a planner, and when a certificate of a plan is to be believed.
//!
//! A planner sees a list through one record, `Problem`: which operations fuse and depend, which views they read and write, and what
//! these weigh. Facts say which operations stand in one block, in two, or one before the other; rules give new facts from known ones;
//! a certificate is a tree of steps and branches whose leaves each show what every plan that reaches them pays.
//!
//! The promise (`laws.rt`): a certificate that is answered yes shows a legal plan at its cost, and no legal plan costs less than
//! its bound (`yes_certifies`), by the plans and costs of arr_ops (`plans_agree`). Moving each FREE to the last user of its base never
//! raises the cost (`plans_settle`), and no legal plan costs less than a floor (`floors_are_low`). The records of certificates are
//! lists and enums whose calls do what their names say.
//!
//! The definitions, in `specs/`: `Problem` and `ProblemOf` (the problem of a list), `Facts`, `Rules`, `Plans` (places, legal and what
//! they cost), `Leaves`, `Trees`, `Verdict` (the records one after another, and the first wrong one), `Settled`, `Floor`, `Laws`, and
//! `Examples`, computed. `docs/CERTIFICATES.md` states the same in words.
#![tactic(auto)]

mod certificate;
mod charge;
mod charges;
mod fact;
mod laws;
mod op_list;
mod places;
mod record;
mod records;
mod reject;

pub use certificate::Certificate;
pub use charge::Charge;
pub use charges::Charges;
pub use fact::Fact;
pub use laws::{floors_are_low, plans_agree, plans_settle, yes_certifies};
pub use op_list::OpList;
pub use places::Places;
pub use record::Record;
pub use records::Records;
pub use reject::Reject;
