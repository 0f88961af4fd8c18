use arr_tree::{Kind, Place, Refusal};
use std::alloc::AllocError;

/// Why `elaborate` gives no steps: the script is refused, or memory ran out.
#[derive(Debug, Drop)]
pub enum ElabFault {
    /// The first refusal of the script (docs/LANGUAGE.md, "Refusals").
    Refused(Refusal),
    NoMemory,
}

impl ElabFault {
    ghost use Rattle.std.specs.Prelude.{◌≡◌};
    ghost use Rattle.arr_elab.specs.declared.fault.ElabFault.TheVariants.{Refused};

    /// The refusal of a token.
    pub(crate) fn at(at: Place, kind: Kind) -> ElabFault
        ensures { result ≡ Refused (record { at = at; kind = kind }) }
    {
        ElabFault::Refused(Refusal { at, kind })
    }
}

impl From<AllocError> for ElabFault {
    ghost use Rattle.std.specs.Prelude.{◌≡◌};
    ghost use Rattle.arr_elab.specs.declared.fault.ElabFault.TheVariants.{NoMemory};

    ghost from_gives = { λ _ e. e ≡ NoMemory };

    fn from(_: AllocError) -> ElabFault {
        ElabFault::NoMemory
    }
}
