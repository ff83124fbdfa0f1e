//! Plans to store nodes in another form, and the jobs that are made of them outside the tree.
ghost use Rattle.std.specs.Prelude.{◌≡◌, IfOk};
ghost use Rattle.bl_desc.specs.Changes.{difference};
ghost use Rattle.bl_desc.specs.declared.desc.Piece.TheVariants.{Relative};
ghost use Rattle.bl_tree.specs.Chains.{described_by};
ghost use Rattle.bl_tree.specs.Jobs.{IsMadeOf, IsChainAbove};
ghost use Rattle.bl_tree.specs.Answers.{installed_as};

use crate::answer::Encoding;
use bl_desc::{Desc, Form, Piece, between};
use bl_mods::Shared;
use bl_problem::Cut;
use bl_rebuild::{Chain, rebuild};
use std::alloc::{AllocError, Global};
use std::marker::Model;

/// What a plan answers. The cases are looked at in the order Gone, Same, Fixed, Gone, Chain.
#[derive(Drop)]
pub enum Planned {
    /// The node is freed; or a relative form was asked, and its parent is.
    Gone,
    /// It has the form.
    Same,
    /// A relative form was asked, and the span divides the node's depth.
    Fixed,
    /// The pieces of which the node can be made anew.
    Chain(Plan),
}

/// What an install answers.
#[derive(Clone, Copy, Debug, PartialEq, Eq)]
pub enum Installed {
    /// The node is freed; or the form is relative, and its parent is.
    Gone,
    /// The node has the form.
    Same,
    /// The node is stored in the form now.
    Made,
}

/// What an install answers, and the piece that it leaves over: what was stored of the node
/// before, or the job's own where that isn't stored. Contracts see the answer. The piece goes
/// with the value: let it go where nobody waits.
#[derive(Drop)]
pub struct SpentJob {
    installed: Installed,
    piece: Option<Piece<Cut>>,
}

impl Model for SpentJob {
    ghost use Rattle.bl_tree.specs.declared.plan.Installed.{Installed as Answered};

    ghost Value = { Answered };

    ghost view = { λ s. s.installed };
}

impl SpentJob {
    /// What the install answers.
    pub fn installed(&self) -> Installed
        ensures { result ≡ self.now }
    {
        self.installed
    }
}

/// The answer of an install that leaves this piece over.
pub fn spent_job(installed: Installed, piece: Option<Piece<Cut>>) -> SpentJob
    ensures { result ≡ installed }
{
    SpentJob { installed, piece }
}

/// What an install answers for a node that stands so to the job's form, which the span does not
/// exclude.
pub fn installed_as(encoding: Encoding) -> Installed
    ensures { result ≡ installed_as encoding }
{
    match encoding {
        Encoding::Open => Installed::Made,
        Encoding::Same => Installed::Same,
        Encoding::Fixed | Encoding::Gone => Installed::Gone,
    }
}

/// A node that is to be stored in another form, with the tree's own pieces, shared, that stand
/// for it, and where the form is relative those that stand for its parent. It keeps its meaning
/// whatever happens to the tree.
#[derive(Drop)]
pub struct Plan {
    pub(crate) id: u32,
    pub(crate) chain: Chain<Cut>,
    // The parent's, where the form is relative.
    pub(crate) above: Option<Chain<Cut>>,
}

impl Model for Plan {
    ghost use Rattle.std.specs.Prelude.{IfSome};
    ghost use Rattle.bl_tree.specs.Views.{pieces_of};
    ghost use Rattle.bl_tree.specs.Chains.{IsApplicable, described_by};
    ghost use Rattle.bl_tree.specs.Jobs.{PlanView, IsChainAbove, form_below, pieces_if};

    ghost Value = { PlanView };

    ghost view = { λ p. record {
      id = p.id;
      form = form_below p.above;
      chain =
          pieces_of p.chain;
      above = pieces_if p.above;
    } };

    ghost invariant = { λ p. IsApplicable p.chain
        × IfSome p.above (λ above. IsChainAbove above (described_by p.chain)) };
}

impl Plan {
    /// The node's number.
    pub fn id(&self) -> u32
        ensures { result ≡ self.now.id }
    {
        self.id
    }

    /// The form that was asked.
    pub fn form(&self) -> Form
        ensures { result ≡ self.now.form }
    {
        match &self.above {
            None => Form::Explicit,
            Some(_) => Form::Relative,
        }
    }
}

/// A node, a form, and the node's piece in that form, which may be installed.
#[derive(Drop)]
pub struct Job {
    pub(crate) id: u32,
    pub(crate) form: Form,
    pub(crate) piece: Piece<Cut>,
}

impl Model for Job {
    ghost use Rattle.bl_tree.specs.Jobs.{JobView};

    ghost Value = { JobView };

    ghost view = { λ j. record { id = j.id; form = j.form; piece = j.piece } };
}

impl Job {
    /// The node's number.
    pub fn id(&self) -> u32
        ensures { result ≡ self.now.id }
    {
        self.id
    }

    /// The form.
    pub fn form(&self) -> Form
        ensures { result ≡ self.now.form }
    {
        self.form
    }

    /// The node's piece in the form.
    pub fn piece(&self) -> &Piece<Cut>
        ensures { result.now ≡ self.now.piece }
    {
        &self.piece
    }
}

// A description as a change of the one that a chain stands for.
fn relative_piece(
    alloc: Global,
    above: &Chain<Cut>,
    desc: &Desc<Cut>,
) -> Result<Piece<Cut>, AllocError>
    requires { IsChainAbove above.now desc.now }
    ensures { IfOk result (λ piece. piece
        ≡ Relative (difference (λ c. c.id) (described_by above.now) desc.now)) }
{
    let parent = rebuild(above)?;
    let change = between(alloc, &parent, desc)?;
    Ok(Piece::Relative(Shared::new(alloc, change)?))
}

/// Makes the piece of a plan, without the tree: the description that its chain stands for, or
/// the canonical difference from that of the parent. `AllocError` where there is no memory.
pub fn encode(alloc: Global, plan: &Plan) -> Result<Job, AllocError>
    ensures { IfOk result (λ job. IsMadeOf plan.now job) }
{
    let desc = rebuild(&plan.chain)?;
    match &plan.above {
        None => {
            let piece = Piece::Explicit(Shared::new(alloc, desc)?);
            Ok(Job {
                id: plan.id,
                form: Form::Explicit,
                piece,
            })
        }
        Some(above) => {
            let piece = relative_piece(alloc, above, &desc)?;
            Ok(Job {
                id: plan.id,
                form: Form::Relative,
                piece,
            })
        }
    }
}
