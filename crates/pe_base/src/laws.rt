//! Laws of the definitions that the crates above rest on. Each function has a law for its contract, and no body.
ghost use Rattle.pe_base.specs.Acts.Effects.{VertexRecord};
ghost use Rattle.pe_base.specs.Walk.Laws.{PutIsFound, RemovedIsGone, FamilyIsRead, OwnIsRead, CarriersAreParents, KeepsAges, FirstTouchKeepsOld, LastTouchSettles};

/// Maps from places hold what is put there, and nothing else changes.
pub fn maps()
    ensures put { PutIsFound VertexRecord }
    ensures removed { RemovedIsGone VertexRecord }
{}

/// What one event sees is read as it was written.
pub fn sights()
    ensures family { FamilyIsRead }
    ensures own { OwnIsRead }
{}

/// The kind of a vertex of a cell is known from the corners of the cell's parent.
pub fn carriers()
    ensures parents { CarriersAreParents }
{}

/// Events change neither old nor new.
pub fn triggers()
    ensures ages { KeepsAges }
{}

/// What of the state table is rested on.
pub fn states()
    ensures first { FirstTouchKeepsOld }
    ensures last { LastTouchSettles }
{}
