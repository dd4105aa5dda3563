// That the law of a split log's mending says something.
ghost use Rattle.std.specs.Prelude.{[], ◌∷◌};
ghost use Rattle.tree_cuts.specs.FirstLeaf.{MayBeFirst};
ghost use Rattle.tree_cuts.specs.Split.{IsNotedAlone};
ghost use Rattle.law_instances.specs.SplitLogs.{first_leaf_words, noted_words};

/// Images that are written out, with a split log at work: in one a first leaf was allocated for a column, and in the
/// other a leaf was noted and none allocated.
pub fn split_log_law()
    ensures first { MayBeFirst first_leaf_words 2096 2184 }
    ensures noted { IsNotedAlone noted_words 2096 2184 (2184 ∷ []) }
{}
