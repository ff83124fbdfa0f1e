//! Laws over histories: each is what a function with nothing to do ensures, in the words of
//! `specs/Laws.antt` and `specs/Seats.antt`.
ghost use Rattle.bl_journal.specs.Laws.{NodesAreStable, LiveNodesCover, AnswersAreTrue};
ghost use Rattle.bl_journal.specs.Laws.{BudgetHolds, ChainsRebuild, LeasesAreWorkable};
ghost use Rattle.bl_journal.specs.Laws.{ChildrenFollow, RepliesEndSearches, DescriptionsAreWhole};
ghost use Rattle.bl_journal.specs.Laws.{NewbornsAreStored, CutsWereAdded};
ghost use Rattle.bl_journal.specs.Seats.{HoldersAreTold, CutIdsAreTold, SearchesEnd, SeatsStayTidy};

/// A node that is born keeps its parent, depth, low number and path under every longer history, and
/// so its description.
pub fn nodes_are_stable()
    ensures { NodesAreStable }
{}

/// In a legal history each feasible point whose value is below the best one less the gap lies in
/// exactly one live node, and its value is at least that node's low number. No point at all lies in
/// two live nodes.
pub fn live_nodes_cover()
    ensures { LiveNodesCover }
{}

/// In a legal history the answer says of all feasible points what its variant means.
pub fn answers_are_true()
    ensures { AnswersAreTrue }
{}

/// In a legal history the takes less the backs are no more than the nodes that may be used; and
/// they and the takes that may still come are together less than twice the number of the root's
/// points. Where there is no point, no node ever lives.
pub fn budget_holds()
    ensures { BudgetHolds }
{}

/// In a legal history an unfreed relative node has an unfreed parent, and the chain of each unfreed
/// node has at most `span` pieces, which applied in order give its description.
pub fn chains_rebuild()
    ensures { ChainsRebuild }
{}

/// In a legal history the description of each node that is born is whole and has the problem's
/// counts of columns and rows, and at most `MOST_CUTS` cuts, of different ids. A parent is born
/// before its child, whose cuts are a part of the parent's and then fresh ones.
pub fn descriptions_are_whole()
    ensures { DescriptionsAreWhole }
{}

/// In a legal history the description of a node that is out is whole and its box has a point, and
/// its cuts are few, suit the problem, hold and have different ids.
pub fn leases_are_workable()
    ensures { LeasesAreWorkable }
{}

/// In a legal history a split gives each child the node's description after the common change, with
/// the split's one bound set.
pub fn children_follow()
    ensures { ChildrenFollow }
{}

/// In a legal history a split's children are stored whole where the span divides their depth, and
/// else as the canonical differences from their parent's description.
pub fn newborns_are_stored()
    ensures { NewbornsAreStored }
{}

/// In a legal history a take is answered Done only where no node is live, and the answer is then
/// final. It is answered Spent only where as many nodes are used as may be and a live node waits,
/// and then twice the number of the root's points is greater by 2 or more than the number of nodes
/// that may be used.
pub fn replies_end_searches()
    ensures { RepliesEndSearches }
{}

/// In a legal history the ids of a node's cuts are among those that puts have added.
pub fn cuts_were_added()
    ensures { CutsWereAdded }
{}

/// In a legal history a node is out with a seat exactly where the seat's own entries say so. Where
/// each seat's own entries leave no node out, none is out.
pub fn holders_are_told()
    ensures { HoldersAreTold }
{}

/// In a legal history the ids with a seat's number, among those of all cuts that were added, are
/// ids of cuts that the seat added.
pub fn cut_ids_are_told()
    ensures { CutIdsAreTold }
{}

/// In a legal history, where no node is live none is ever live again, and where as many nodes are
/// used as may be they stay used until one is given back. So a search is over at its end if no node
/// is out then, some take was answered Done or Spent, and no node was given back since.
pub fn searches_end()
    ensures { SearchesEnd }
{}

/// A seat that has tidied stays so under the entries of others.
pub fn seats_stay_tidy()
    ensures { SeatsStayTidy }
{}
