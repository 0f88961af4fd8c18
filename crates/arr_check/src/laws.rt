//! Laws of verdicts. Each function does nothing: its contract is the law.
ghost use Rattle.arr_check.specs.Judged.{YesIsSure};

/// A certificate that passes, whatever its source tells of its bytes, shows a legal plan of a formed list at the cost answered, and no
/// legal plan costs less than the bound (docs/CERTIFICATES.md, "What a yes means").
pub fn yes_is_sure()
    ensures { YesIsSure }
{}
