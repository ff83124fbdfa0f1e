//! Laws over trees: each is what a function with nothing to do ensures, in the words of
//! `specs/Jobs.antt`.
ghost use Rattle.bl_tree.specs.Jobs.{PlansStay, JobsStay, PlansMakeJobs};

/// A plan of a tree stays a plan of it, whatever is entered later.
pub fn plans_stay()
    ensures { PlansStay }
{}

/// A job for a tree stays a job for it, whatever is entered later.
pub fn jobs_stay()
    ensures { JobsStay }
{}

/// What is made of a plan of a tree is a job for that tree.
pub fn plans_make_jobs()
    ensures { PlansMakeJobs }
{}
