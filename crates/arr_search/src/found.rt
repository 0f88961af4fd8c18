use arr_law::Certificate;
use arr_ops::Plan;

/// What a search found (docs/CERTIFICATES.md, "Searching").
#[derive(Debug, Drop)]
pub struct Found {
    /// The best plan that was found.
    pub plan: Plan,
    /// What it costs, in bytes.
    pub cost: u64,
    /// What no legal plan costs less than, in bytes.
    pub bound: u64,
    /// How many steps and branches the certificate has.
    pub units: u64,
    /// The certificate of the plan and the bound.
    pub certificate: Certificate,
}
