//! Laws of walks, merge bases, descriptions and traversals, for proofs to cite. The functions do nothing.
ghost use Rattle.std.specs.Prelude.{Bool, List};
ghost use Rattle.gx_hash.specs.declared.oid.ObjectId.{ObjectId};
ghost use Rattle.gx_walk.specs.History.{History};
ghost use Rattle.gx_walk.specs.AnswerLaws.{BasesAreOneList, BasesGoBothWays, DescriptionIsOne, OctopusIsOne};
ghost use Rattle.gx_walk.specs.Laws.{NextIsUnique, NextGoesOn, WalkIsUnique, ListsOnce, LaterAnswersKeep, WithoutHidden, WholeListsOpen, WholeListsDifference};
ghost use Rattle.gx_walk.specs.TraversalLaws.{BreadthFirstIsByLevels, DepthFirstIsNested};
ghost use Rattle.gx_walk.specs.declared.commit.sorting.WalkOptions.{WalkOptions};

/// The list of a walk is unique, and has no commit twice.
pub fn walk_is_one_list()
    ensures next { (history : History) (options : WalkOptions) (asked : List (ObjectId × Bool))
        → NextIsUnique history options asked }
    ensures goes_on { (history : History) (options : WalkOptions) (asked : List (ObjectId × Bool))
        → NextGoesOn history options asked }
    ensures whole { (history : History) (options : WalkOptions) (asked : List (ObjectId × Bool))
        → WalkIsUnique history options asked }
    ensures once { (history : History) (options : WalkOptions) (asked : List (ObjectId × Bool))
        → ListsOnce history options asked }
    ensures later { (history : History) (options : WalkOptions) (asked : List (ObjectId × Bool))
        → LaterAnswersKeep history options asked }
{}

/// A walk with hidden ids is the walk without them, less what they reach.
pub fn hidden_walk_is_the_walk_without_it()
    ensures { WithoutHidden }
{}

/// The set of commits that a walk has listed when it ends without an error.
pub fn whole_walk_is_a_set()
    ensures through { WholeListsOpen }
    ensures difference { WholeListsDifference }
{}

/// The merge bases of two commits are the same in the other order.
pub fn bases_go_both_ways()
    ensures { BasesGoBothWays }
{}

/// The merge bases of commits are one list, and so is the base of several commits one answer.
pub fn bases_are_one_list()
    ensures bases { BasesAreOneList }
    ensures octopus { OctopusIsOne }
{}

/// The description of a commit is one.
pub fn description_is_one()
    ensures { DescriptionIsOne }
{}

/// A traversal depth first visits what is below a tree right after the tree.
pub fn depth_first_is_nested()
    ensures { DepthFirstIsNested }
{}

/// A traversal breadth first visits one level after another.
pub fn breadth_first_is_by_levels()
    ensures { BreadthFirstIsByLevels }
{}
