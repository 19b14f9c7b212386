//! The laws of the walk over places on stacks. Each function has a law for its contract, and no body: the law holds of the
//! definitions alone. They hold in two to four axes, both ways, at every depth.
//!
//! First the lists of faces. The walk of a cell loads the cell's corners, walks each child, and stores the corners. On each
//! stack `composition` says that the list that a load or a child wants is on top, and what the stack holds afterwards;
//! `neighbours_agree` is why, and says besides what one cell finds of another. `beneath_untouched` carries the values of
//! all that waits beneath over each part of the walk, where that part touches nothing of what waits beneath its own lists.
//! `steps` says that a load finds its vertex among the corners of just one face, or is its first, and likewise a store;
//! `corners_on_stacks` names the stack by which each corner comes and goes, and is the bridge from the routes of corners
//! to the lists of faces. `counts` turns loads and stores into pops and pushes, vertex by vertex. On an adaptive grid the
//! same lists hold: `unwalked_is_empty` leaves out the cells that are not walked, and `leaf_is_corners` is the walk of a
//! cell that has no walked children.
//!
//! Then the walk over places on stacks, with no record and no event. `walk_of_a_cell` and `whole_traversal` say that it
//! runs, each place on top when it is wanted, and what it leaves; `loads_are_due` that each load comes after those of the
//! cells around its vertex that come before. They ask that an outlook fits a walk: `grids_fit` says that what is foreseen
//! of a traversal does, and what is stored. `places_stand_apart`, `cells_stand_apart` and `first_and_last` are what the
//! values of vertices and cells need, and `moves_and_frames` says what each move changes, and what the walk of a cell leaves.
//! `turning_round`, `streams_are_one` and `streams_of_grids` make what is written what is read next. `traffic`,
//! `stacks_are_short` and `cells_are_few` are the counts, and `tallies` has them in the words in which a traversal counts.
ghost use Rattle.pe_order.specs.Laws.{NeighboursAgree, FacesAreOneWay, OneFaceOnEach, Composition, BeneathUntouched, StoresAsLoads, TouchedInOrder, UnwalkedIsEmpty, LeafIsCorners, CellsOfTheTree, StepsCrossFaces, StepsAreCorners, CornersAreSteps, StretchesJoin, StandTogether, CornersCrossOnce, CornersOnStacks};
ghost use Rattle.pe_order.specs.TokenLaws.{WalkOfACell, LoadsAreDue, LoadedAround, WholeTraversal, TurningRound, TurningAround};
ghost use Rattle.pe_order.specs.Outlooks.{ForecastFits, StoredFits};
ghost use Rattle.pe_order.specs.StreamLaws.{FitsTurned, StreamsAreOne, ReadsAreStreams, NextIsFormed, WritesAreStreams, TraversalOfAGrid};
ghost use Rattle.pe_order.specs.Traffic.{TrafficOfACell, TrafficOfATraversal, LoadsPerCell, CountsPerCell, TrafficIsCrossings, HangingLoads, FirstVerticesCount, CountsOfATraversal, FewVertices, StepsKeepCounting, BeginsCounting, StacksAreShort};
ghost use Rattle.pe_order.specs.Apart.{StepsKeepApart, BeginsApart, CornersByCounting};
ghost use Rattle.pe_order.specs.FewCells.{FewCells, FewCellsOfTraversals, FewCellsOfGrids};
ghost use Rattle.pe_order.specs.Tallies.{TallyOfACell, TrafficByTally, KindsForeseen, TrafficOfGrids};
ghost use Rattle.pe_order.specs.Frames.{WhatStepsChange, WhatWalksLeave};
ghost use Rattle.pe_order.specs.CellsAhead.{WalkedCellsDiffer, StepsKeepAhead, BeginsAhead, MovesItsCells};

/// The cells of the tree are the places of cells.
pub fn tree()
    ensures cells { CellsOfTheTree }
{}

/// What a cell leaves at a face is what arrives in its neighbour there.
pub fn neighbours_agree()
    ensures agree { NeighboursAgree }
{}

/// Nothing is left at a face to an earlier cell, nothing arrives at a face to a later one, and neither on the root's
/// boundary.
pub fn faces_are_one_way()
    ensures one_way { FacesAreOneWay }
{}

/// The lists of a cell's own corners and of its children compose to those of the cell, on each stack.
pub fn composition()
    ensures stacks { OneFaceOnEach }
    ensures stretches { Composition }
{}

/// No part of the walk of a cell touches what waits beneath its lists.
pub fn beneath_untouched()
    ensures untouched { BeneathUntouched }
    ensures stores { StoresAsLoads }
{}

/// Stretches on a stack, one after another.
pub fn stretches_join()
    ensures join { StretchesJoin }
{}

/// The loads and stores of a vertex are its steps, and those within a cell are for cells that stand together around it.
pub fn counts()
    ensures counted { TouchedInOrder }
    ensures together { StandTogether }
{}

/// Each step around a vertex crosses one face. There one cell leaves the vertex, and it arrives in the other.
pub fn steps()
    ensures cross { StepsCrossFaces }
    ensures corners { StepsAreCorners }
    ensures only { CornersAreSteps }
{}

/// A corner comes to its cell across one face, or none, and goes from it so; the corners that come and go by a stack are
/// those of the cell's face on it.
pub fn corners_on_stacks()
    ensures once { CornersCrossOnce }
    ensures stacks { CornersOnStacks }
{}

/// A cell that is not walked has empty lists.
pub fn unwalked_is_empty()
    ensures empty { UnwalkedIsEmpty }
{}

/// A cell without walked children has its own corners for its lists.
pub fn leaf_is_corners()
    ensures corners { LeafIsCorners }
{}

/// Each load of a traversal comes after those of the cells around its vertex that come before, and no others.
pub fn loads_are_due()
    ensures due { LoadsAreDue }
    ensures around { LoadedAround }
{}

/// The walk of a cell over places on stacks finds each place on top, and leaves its lists on what was beneath.
pub fn walk_of_a_cell()
    ensures runs { WalkOfACell }
{}

/// A traversal over places on stacks makes its output streams of its input streams.
pub fn whole_traversal()
    ensures runs { WholeTraversal }
{}

/// What a walk writes, the last one first, is what the other way reads.
pub fn turning_round()
    ensures round { TurningRound }
    ensures around { TurningAround }
{}

/// What is foreseen of a traversal of a grid fits a walk, and so does what the grid has stored.
pub fn grids_fit()
    ensures forecast { ForecastFits }
    ensures stored { StoredFits }
{}

/// A place that counts is on one stack once, or held, or nowhere.
pub fn places_stand_apart()
    ensures kept { StepsKeepApart }
    ensures begun { BeginsApart }
{}

/// The cells of a walk differ, so those that are still to be entered lie where they lay as the traversal began. The walk
/// of a cell moves no cells but its own.
pub fn cells_stand_apart()
    ensures differ { WalkedCellsDiffer }
    ensures kept { StepsKeepAhead }
    ensures begun { BeginsAhead }
    ensures moved { MovesItsCells }
{}

/// What each move of the walk over places changes, and what the walk of a cell leaves as it was.
pub fn moves_and_frames()
    ensures steps { WhatStepsChange }
    ensures walks { WhatWalksLeave }
{}

/// A corner comes from no stack to the first of the cells around it, and goes to none from the last.
pub fn first_and_last()
    ensures counted { CornersByCounting }
{}

/// Walks that read the same read it in one order, and what fits a walk fits it the other way round.
pub fn streams_are_one()
    ensures turned { FitsTurned }
    ensures one { StreamsAreOne }
{}

/// A traversal reads the streams of the grid before it, and writes, the last one first, those of the grid after it, which
/// is well-formed.
pub fn streams_of_grids()
    ensures reads { ReadsAreStreams }
    ensures formed { NextIsFormed }
    ensures writes { WritesAreStreams }
    ensures both { TraversalOfAGrid }
{}

/// What the walk of a cell and a traversal move, make and give up, by their loads and stores; how much is out at most; and
/// no count rises by more than one for each corner of each walked cell, over a traversal those of the root too. The vertices
/// whose crossings are the traffic are those that count, each once.
pub fn traffic()
    ensures cell { TrafficOfACell }
    ensures traversal { TrafficOfATraversal }
    ensures loads { LoadsPerCell }
    ensures counts { CountsPerCell }
    ensures crossings { TrafficIsCrossings }
    ensures hanging { HangingLoads }
    ensures firsts { FirstVerticesCount }
    ensures in_all { CountsOfATraversal }
{}

/// Vertices that count are at most as many as the walked cells, and no stack is longer.
pub fn stacks_are_short()
    ensures few { FewVertices }
    ensures kept { StepsKeepCounting }
    ensures begun { BeginsCounting }
    ensures short { StacksAreShort }
{}

/// A traversal walks no more cells than its vertices allow: 3^d + 6^d n below the root, for n vertices that count.
pub fn cells_are_few()
    ensures few { FewCells }
    ensures traversals { FewCellsOfTraversals }
    ensures grids { FewCellsOfGrids }
{}

/// What is counted of the walk of a cell and of a traversal, and what a traversal moves in these counts.
pub fn tallies()
    ensures cell { TallyOfACell }
    ensures traffic { TrafficByTally }
    ensures kinds { KindsForeseen }
    ensures grids { TrafficOfGrids }
{}
