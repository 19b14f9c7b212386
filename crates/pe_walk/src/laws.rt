//! The laws on which the walk over stacks rests. Those of places, which know no record and no event, are handed on from
//! `pe_order`, where each is explained. Each function but `walk_cell` has a law for its contract, and no body: the law holds
//! of the definitions alone. They hold in two to four axes, both ways, at every depth. `walk_cell` walks one cell, and has
//! the law of a face for its contract. `cells_in_turn` says that the children of the root may be walked by it, one after
//! another, from the first event of a traversal on, and so those of each cell that is entered.
//!
//! The walk: `steps_are_the_machine` says that the walk over stacks has the order that all walks have.
//!
//! The values: `core_keeps` and `kinds_are_found` are what they need. `load_of_a_corner` and `store_of_a_corner` say that one
//! touch on stacks is the one by address, and `stacks_are_addresses` says that a traversal on
//! stacks is the walk by address; `traversals_are_exact` says what it counts and moves. So it is with the walk of one cell, by
//! `law_of_a_face` and `cells_are_exact`, and `beneath_is_left` says that it leaves what lies beneath.
ghost use Rattle.pe_walk.specs.CoreKeeps.{CoreKeeps};
ghost use Rattle.pe_walk.specs.MachineSteps.{StepsAreTheMachine};
ghost use Rattle.pe_walk.specs.Standing.{KindsAreFound};
ghost use Rattle.pe_walk.specs.Gridded.{StacksAreAddresses};
ghost use Rattle.pe_walk.specs.Beneath.{BeneathIsLeft, BeneathStays};
ghost use Rattle.pe_walk.specs.CornerLaw.{LoadOfACorner, StoreOfACorner};
ghost use Rattle.pe_walk.specs.FaceLaw.{LawOfAFace, CellsAreExact, FirstCellMayBeWalked, FirstChildMayBeWalked, NextCellMayBeWalked, LastChildEndsTheCell};
ghost use Rattle.pe_walk.specs.Traversing.{CountsStay};
ghost use Rattle.pe_walk.specs.TraversalTraffic.{TallyIsForeseen, TraversalsAreExact};

pub use crate::face::walk_cell;
use pe_base::Effects;
pub use pe_order::laws::{
    beneath_untouched, cells_are_few, cells_stand_apart, composition, corners_on_stacks, counts,
    faces_are_one_way, first_and_last, grids_fit, leaf_is_corners, loads_are_due, moves_and_frames,
    neighbours_agree, places_stand_apart, stacks_are_short, steps, streams_are_one,
    streams_of_grids, stretches_join, tallies, traffic, tree, turning_round, unwalked_is_empty,
    walk_of_a_cell, whole_traversal,
};

/// The core of a walk keeps kinds, and old and new, of all that its events see, by the law of effects.
pub fn core_keeps<E: Effects>()
    ensures alike { CoreKeeps E.Plan }
{}

/// The machine of lists is a walk of steps, as every walk over the cells is: each cell is counted, its corners are loaded, it is
/// entered, its children are walked, it is left, and its corners are stored.
pub fn steps_are_the_machine<E: Effects>()
    ensures same { StepsAreTheMachine E.Plan }
{}

/// At a load, the kind of a corner is found by the map as the parent's corners in hand have it: it is the one foreseen.
pub fn kinds_are_found<E: Effects>()
    ensures found { KindsAreFound E.Plan }
{}

/// A corner is loaded by the machine of lists as by address, where the stack that the order around it names has it on top. So
/// its record is the one under its address, and no stack has grown.
pub fn load_of_a_corner<E: Effects>()
    ensures same { LoadOfACorner E.Plan }
{}

/// A corner is stored by the machine of lists as by address: on top of the stack that the order around it names.
pub fn store_of_a_corner<E: Effects>()
    ensures same { StoreOfACorner E.Plan }
{}

/// The walk of a cell of the machine of lists adds the text of the walk by address and ends alike: what it takes was on top of
/// each stack, what it gives is, and all beneath is as it was. Each push leaves its stack short.
pub fn law_of_a_face<E: Effects>()
    ensures same { LawOfAFace E.Plan }
{}

/// The walk of a cell does the same whatever lies beneath what it takes, and leaves all records there as they are. So, where a
/// cell may be walked, the vertices and the cells beneath are afterwards where they were, each with its values.
pub fn beneath_is_left<E: Effects>()
    ensures left { BeneathIsLeft E.Plan }
    ensures stays { BeneathStays E.Plan }
{}

/// The walk of a cell on stacks counts and moves just what its loads and stores do, and no more is out in between than the
/// corners of one cell of each level.
pub fn cells_are_exact<E: Effects>()
    ensures exact { CellsAreExact E.Plan }
{}

/// Where a traversal may begin and its first event is done, the first child of the root may be walked by `walk_cell`. So may the
/// first child of a cell of any level, once the cell was entered where it may be walked; and at every level, once a child was
/// walked, so may the next. Once all children were walked, the cell is left and its corners are stored, and so its own walk ends.
pub fn cells_in_turn<E: Effects>()
    ensures first { FirstCellMayBeWalked E.Plan }
    ensures below { FirstChildMayBeWalked E.Plan }
    ensures next { NextCellMayBeWalked E.Plan }
    ensures last { LastChildEndsTheCell E.Plan }
{}

/// A traversal of the machine of lists adds the text of the walk by address and ends alike, with the next grid on its stacks.
/// Each push leaves its stack short.
pub fn stacks_are_addresses<E: Effects>()
    ensures same { StacksAreAddresses E.Plan }
{}

/// A traversal counts what is foreseen of it, by address and on stacks, and moves just what it counts. No count of a depot
/// rises by more than 64 for each cell, and once more.
pub fn traversals_are_exact<E: Effects>()
    ensures tally { TallyIsForeseen E.Plan }
    ensures exact { TraversalsAreExact E.Plan }
{}

/// No count of a depot that was new passes what a traversal asks for, over a billion traversals, each of no more cells than
/// may be walked.
pub fn counts_stay()
    ensures stay { CountsStay }
{}
