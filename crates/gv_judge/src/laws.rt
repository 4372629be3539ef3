//! Laws of the definitions in this crate. Each function does nothing: its contract is the law.

ghost use Rattle.gv_judge.specs.SearchLaws.{NodesAreWalks, FullNodesExplain, AnswersExclude};
ghost use Rattle.gv_judge.specs.SearchExamples.{WorkedSearches};
ghost use Rattle.gv_judge.specs.Explained.{FullNodesAreExplanations, NoFullNodeNoExplanation, FewNodesWithoutPicks};

use gv_spec::Spec;

/// What the nodes of the search are, for any specification whose lists of choices are told: the lists of
/// moves that the walk takes and that show the beginning of the history. So the full ones are exactly the
/// explanations of the history.
pub fn search_order<F, V>()
    ensures nodes { NodesAreWalks F V }
    ensures full { FullNodesExplain F V }
{}

/// The same for a specification that is made of terms: the full nodes of its search are exactly the
/// explanations of the history, and a history without a full node has none at all.
pub fn written_search_order(spec: &Spec)
    ensures full { FullNodesAreExplanations spec.now }
    ensures none { NoFullNodeNoExplanation spec.now }
{}

/// Of the three answers to a search no two hold: a full node that comes first within so many nodes, no full
/// one among at most so many, and none among the first so many of more. And one node comes first.
pub fn answers_exclude<V>()
    ensures { AnswersExclude V }
{}

/// How many nodes there are of a history in which nothing crashes and each call answers before the next one
/// starts, where nothing is picked: at most two for each entry, and one.
pub fn few_nodes(spec: &Spec)
    ensures { FewNodesWithoutPicks spec.now }
{}

/// Searches worked by computation: the nodes of two histories, in their order.
#[tactic(auto, using(crate::proofs::SearchExamples::worked_searches))]
pub fn worked_searches()
    ensures { WorkedSearches }
{}
