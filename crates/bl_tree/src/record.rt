//! What the tree keeps of a node.
ghost use Rattle.std.specs.Prelude.{◌≡◌, ◌≤◌, ◌^◌, IfSome};
ghost use Rattle.bl_desc.specs.Weights.{HasShortLists};
ghost use Rattle.bl_tree.specs.Records.{is_relative, weight_if, fresh_record};

use bl_desc::{Piece, weight};
use bl_journal::State;
use bl_problem::Cut;

/// A node: its parent and the first of its children, its depth and low number, where it stands,
/// whether its box has a point, and how it is stored, unless it is freed.
#[derive(Drop)]
pub struct Record {
    pub low: i128,
    pub piece: Option<Piece<Cut>>,
    pub parent: Option<u32>,
    pub children: Option<u32>,
    pub stage: State,
    pub depth: u32,
    pub has_point: bool,
}

impl Record {
    ghost use Rattle.bl_journal.specs.Replies.{is_waiting, is_out};
    ghost use Rattle.bl_tree.specs.Records.{waits};

    fn is_waiting(&self) -> bool
        ensures { result ≡ is_waiting self.now.stage }
    {
        match self.stage {
            State::Waiting => true,
            _ => false,
        }
    }

    pub fn is_out(&self) -> bool
        ensures { result ≡ is_out self.now.stage }
    {
        match self.stage {
            State::Out { .. } => true,
            _ => false,
        }
    }

    /// Whether the node waits and is live.
    pub fn waits(&self, cutoff: Option<i128>) -> bool
        ensures { result ≡ waits cutoff self.now }
    {
        self.is_waiting() && self.is_open(cutoff)
    }
}

impl Record {
    ghost use Rattle.bl_journal.specs.Freeing.{is_over};
    ghost use Rattle.bl_tree.specs.Records.{lives};
    ghost use Rattle.bl_journal.specs.States.{is_below};
    ghost use Rattle.bl_journal.specs.Pieces.{is_freed};
    ghost use Rattle.std.specs.Prelude.{◌&&◌};

    /// Whether the node is live.
    pub fn lives(&self, cutoff: Option<i128>) -> bool
        ensures { result ≡ lives cutoff self.now }
    {
        self.is_out() || self.waits(cutoff)
    }

    // Whether the node may have a better point.
    fn is_open(&self, cutoff: Option<i128>) -> bool
        ensures { result ≡ (self.now.has_point && is_below self.now.low cutoff) }
    {
        self.has_point
            && match cutoff {
                None => true,
                Some(value) => self.low < value,
            }
    }

    /// Whether the node is split, shut, or waiting and not live.
    pub fn is_over(&self, cutoff: Option<i128>) -> bool
        ensures { result ≡ is_over self.now.stage
            (self.now.has_point && is_below self.now.low cutoff) }
    {
        match self.stage {
            State::Split => true,
            State::Shut => true,
            State::Waiting => !self.is_open(cutoff),
            State::Out { .. } => false,
            State::Freed => false,
        }
    }

    /// Whether the node is stored relative to its parent.
    pub fn is_relative(&self) -> bool
        ensures { result ≡ is_relative self.now.piece }
    {
        match &self.piece {
            Some(Piece::Relative(_)) => true,
            _ => false,
        }
    }

    /// Whether the node is freed.
    pub fn is_gone(&self) -> bool
        ensures { result ≡ is_freed self.now.stage }
    {
        match self.stage {
            State::Freed => true,
            _ => false,
        }
    }

    /// The weight of the node's piece, 0 where it is freed.
    pub fn weight(&self) -> u64
        requires { IfSome self.now.piece HasShortLists }
        ensures exact { result ≡ weight_if self.now.piece }
        ensures small { result ≤ 2 ^ 36 }
    {
        match &self.piece {
            Some(piece) => weight(piece),
            None => 0,
        }
    }
}

/// The record of a new child.
pub fn new_record(parent: u32, depth: u32, low: i128, has_point: bool, piece: Piece<Cut>) -> Record
    ensures { result ≡ fresh_record parent depth low has_point piece }
{
    Record {
        parent: Some(parent),
        children: None,
        depth,
        low,
        stage: State::Waiting,
        has_point,
        piece: Some(piece),
    }
}
