ghost use Rattle.arr_nest.specs.Laws.{NestsWalkViews};

/// The elements of a view are those at the index lists of its shape, in the same order (docs/LANGUAGE.md, "Views").
pub fn nests_walk_views()
    ensures { NestsWalkViews }
{}
