ghost use Rattle.std.specs.Prelude.{◌≡◌};
ghost use Rattle.pe_base.specs.Life.Kinds.{kind_from};
ghost use Rattle.pe_base.specs.Life.Table.{first_touch, last_touch, start_state};

use pe_base::{Kind, State};

/// The kind of a vertex or a cell, by whether it is stored before the traversal and whether it is stored after.
pub fn kind_of(old: bool, new: bool) -> Kind
    ensures { result ≡ kind_from old new }
{
    match (old, new) {
        (true, true) => Kind::Kept,
        (false, true) => Kind::Born,
        (true, false) => Kind::Dying,
        (false, false) => Kind::Hanging,
    }
}

/// What becomes of a vertex's state at its first touch: what was triggered begins, and a dying vertex erases if it
/// was refined.
pub fn first_touch(state: State, kind: Kind) -> State
    ensures { result ≡ first_touch state kind }
{
    match (kind, state) {
        (Kind::Kept, State::RefinementTriggered) => State::Refining,
        (Kind::Kept, State::EraseTriggered) => State::Erasing,
        (Kind::Dying, State::Refined | State::EraseTriggered) => State::Erasing,
        (Kind::Dying, _) => State::Unrefined,
        _ => state,
    }
}

/// What becomes of a vertex's state at its last touch: of a vertex that stays, what was begun is done.
pub fn last_touch(state: State, kind: Kind) -> State
    ensures { result ≡ last_touch state kind }
{
    match (kind, state) {
        (Kind::Kept | Kind::Born, State::Refining) => State::Refined,
        (Kind::Kept | Kind::Born, State::Erasing) => State::Unrefined,
        _ => state,
    }
}

/// The state of a vertex that is born: refining where the first traversal is to refine its level.
pub fn start_state(traversal: u64, level: u8, start_level: u8) -> State
    ensures { result ≡ start_state traversal level start_level }
{
    if traversal == 1 && level < start_level {
        State::Refining
    } else {
        State::Unrefined
    }
}
