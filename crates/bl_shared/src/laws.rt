//! A law over leases of many seats: what a function with nothing to do ensures, in the words of
//! `specs/Laws.antt`.
ghost use Rattle.bl_shared.specs.Laws.{LeasesOutlastOthers};

/// In a legal history a lease stays one under the entries of others, and so does what may be put
/// for it.
pub fn leases_outlast_others()
    ensures { LeasesOutlastOthers }
{}
