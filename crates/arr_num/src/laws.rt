ghost use Rattle.arr_num.specs.Laws.{FoldsRegroup, StartsAreNeutral, WrapsInto, WrapsToOne};

/// The law of wrapping: the wrapped number is in the type, it differs from the number by a multiple of the
/// type's size, and it is the only one (docs/LANGUAGE.md, "Wrapping"). The body does nothing.
pub fn wrapping_law()
    ensures into { WrapsInto }
    ensures only { WrapsToOne }
{}

/// The laws of folds: their steps may be grouped in any way, and a fold of one number is that number
/// (docs/LANGUAGE.md, "Opcodes"). The body does nothing.
pub fn fold_laws()
    ensures regroup { FoldsRegroup }
    ensures neutral { StartsAreNeutral }
{}
