//! Laws of formed lists. The function does nothing: its contract is the law.
ghost use Rattle.arr_state.specs.Laws.{PlansKeepFacts};

/// A settled legal plan of a formed list meets what the list alone gives, and whatever steps give from facts that it meets: so it meets all that
/// a state knows once it meets the decisions (docs/CERTIFICATES.md, "Rules").
pub fn plans_keep_facts()
    ensures { PlansKeepFacts }
{}
