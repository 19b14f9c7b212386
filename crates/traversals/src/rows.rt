//! Worked rows of traversals by native mappings. What they count and move, and the numbers of events, come from a plain program
//! that walks maps of cells and vertices by their addresses.
ghost use Rattle.std.specs.Prelude.{◌≡◌};

use crate::nine_cells::EVENTS;
use crate::running::{Row, walks_as};
use crate::{Plan, Planned, Scarce};
use ledger::{Ledger, Number};
use pe_adapt::WalkStop;
use pe_base::limits::MOST_CELLS;
use pe_base::{Dim, Place, Setup, Stop};
use pe_mapping::Mapping;
use pe_stacks::{CellRec, Depot, Shown, VecDepot, Vertex};
use std::alloc::{AllocError, Global};
use std::process::Abort;
use std::test::Fail;

/// The number of no event.
const NEVER: u64 = u64::MAX;

/// More pushes than make a stack longer than it ever was, in any walk here.
const MANY: u64 = 1000;

/// On level 1 in the plane, a vertex that is refined in the first traversal, and erased in the third.
const PLANE: &[Row] = &[
    (9, 0, 4, 4, 0, 20, 1),
    (45, 4, 29, 25, 0, 64, 2),
    (45, 29, 29, 0, 0, 64, 2),
    (45, 29, 4, 0, 25, 64, 2),
    (9, 4, 4, 0, 0, 20, 1),
];

/// The same in space.
const SPACE: &[Row] = &[
    (27, 0, 8, 8, 0, 152, 1),
    (243, 8, 133, 125, 0, 880, 2),
    (243, 133, 133, 0, 0, 880, 2),
    (243, 133, 8, 0, 125, 880, 2),
    (27, 8, 8, 0, 0, 152, 1),
];

/// And on four axes.
const FOUR: &[Row] = &[
    (81, 0, 16, 16, 0, 1040, 1),
    (1377, 16, 641, 625, 0, 11776, 2),
    (1377, 641, 641, 0, 0, 11776, 2),
    (1377, 641, 16, 0, 625, 11776, 2),
    (81, 16, 16, 0, 0, 1040, 1),
];

/// The event that touches the vertex all of whose positions are 1 first, in the first traversal.
const REFINED: u64 = 2;

/// The same in the third traversal, in the plane.
const ERASED: u64 = 421;

/// What a depot moved: pushes and pops of each stack, the records that were lent, and how many were out at most.
#[derive(Clone, Copy)]
struct Moved {
    stacks: &'static [(u64, u64)],
    fresh: u64,
    most: u64,
}

fn setup_of(axes: u8, max_level: u8, start_level: u8, max_cells: u64) -> Option<Setup> {
    let dim = Dim::new(axes)?;
    if start_level < 1 || max_level < start_level || 20 < max_level {
        return None;
    }
    if max_cells < 81 || MOST_CELLS < max_cells {
        return None;
    }
    Some(Setup {
        dim,
        max_level,
        start_level,
        max_cells,
    })
}

// The mapping of a grid that refines and erases the vertices of these events.
fn changing(alloc: Global, setup: &Setup, refined: u64, erased: u64) -> Planned
    ensures dim { result.dim ≡ setup.now.dim }
    ensures greatest { result.plan.greatest ≡ setup.now.max_level }
{
    let plan = Plan {
        greatest: setup.max_level,
        refused: NEVER,
        refined,
        erased,
    };
    Planned::new(alloc, setup.dim, plan)
}

fn vertex_depot(alloc: Global) -> Result<VecDepot<Vertex<Number>>, AllocError> {
    VecDepot::new(alloc, 10)
}

fn cell_depot(alloc: Global) -> Result<VecDepot<CellRec<Number>>, AllocError> {
    VecDepot::new(alloc, 2)
}

fn check_moved<R, D: Depot<R>>(rt: &impl Abort, depot: &D, moved: &Moved) {
    for s in 0..depot.stacks() {
        let counts = (depot.pushes(s), depot.pops(s));
        assert!(rt; moved.stacks.get(s as usize) == Some(&counts), "stack {s}");
    }
    assert!(rt; (depot.fresh(), depot.most()) == (moved.fresh, moved.most));
}

// Nothing is out, and once the stacks are cleared all that was lent was given up.
fn check_settles<R, D: Depot<R>>(rt: &impl Abort, depot: &mut D) {
    assert!(rt; depot.out() == 0);
    depot.clear();
    assert!(rt; (depot.out(), depot.fresh()) == (0, depot.spent()));
}

#[test]
fn boxes_pass_through_every_stack(rt: HostRuntime) -> Result<(), Fail> {
    let alloc = rt.alloc();
    let setup = setup_of(2, 2, 2, MOST_CELLS).ok_or("settings")?;
    let mut ledger = Ledger::new(alloc, setup.dim, setup.max_level);
    let mut dv = vertex_depot(alloc)?;
    let mut dc = cell_depot(alloc)?;
    let root = ledger.fresh_c()?;
    let rows = &[(90, 0, 68, 68, 0, 88, 2), (90, 68, 68, 0, 0, 88, 2)];
    let stop = walks_as(&rt, root, &setup, &mut ledger, &mut dv, &mut dc, rows);
    assert!(rt; stop == None);
    check_moved(
        &rt,
        &dv,
        &Moved {
            stacks: &[
                (80, 80),
                (80, 80),
                (124, 124),
                (124, 124),
                (0, 0),
                (0, 0),
                (0, 0),
                (0, 0),
                (68, 0),
                (68, 68),
            ],
            fresh: 252,
            most: 12,
        },
    );
    check_moved(
        &rt,
        &dc,
        &Moved {
            stacks: &[(90, 0), (90, 90)],
            fresh: 90,
            most: 2,
        },
    );
    assert!(rt; dv.stacks() == 10);
    for i in 0..dv.len(8) {
        assert!(rt; *dv.look(8, i).payload().0 == 2);
    }
    check_settles(&rt, &mut dv);
    check_settles(&rt, &mut dc);
    Ok(())
}

// The first traversal of nine cells, in which the event of that number overflows.
fn refused(rt: &impl Abort, alloc: Global, number: u64) -> Result<Option<WalkStop>, Fail> {
    let setup = setup_of(2, 1, 1, MOST_CELLS).ok_or("settings")?;
    let plan = Plan {
        greatest: setup.max_level,
        refused: number,
        refined: NEVER,
        erased: NEVER,
    };
    let mut planned = Planned::new(alloc, setup.dim, plan);
    let mut dv = vertex_depot(alloc)?;
    let mut dc = cell_depot(alloc)?;
    let root = planned.fresh_c()?;
    let rows = &[(9, 0, 4, 4, 0, 20, 1)];
    let stop = walks_as(rt, root, &setup, &mut planned, &mut dv, &mut dc, rows);
    let fired = if stop.is_none() {
        81
    } else {
        number.saturating_add(1)
    };
    assert!(rt; planned.events() == fired);
    check_settles(rt, &mut dv);
    check_settles(rt, &mut dc);
    Ok(stop)
}

#[test]
fn each_event_may_refuse(rt: HostRuntime) -> Result<(), Fail> {
    for (number, (event, level, x, y)) in EVENTS.iter().enumerate() {
        let stop = WalkStop::Event {
            stop: Stop::Overflow,
            event: *event,
            at: Place {
                level: *level,
                pos: [*x, *y, 0, 0],
            },
        };
        assert!(rt;
            refused(&rt, rt.alloc(), number as u64)? == Some(stop),
            "event {number}"
        );
    }
    assert!(rt; EVENTS.len() == 81);
    assert!(rt; refused(&rt, rt.alloc(), 81)? == None);
    Ok(())
}

// Five traversals in depots of which so many pushes may make a stack longer than it ever was: why they
// stopped, and the grants that are left.
fn granted(
    rt: &impl Abort,
    alloc: Global,
    vertices: u64,
    cells: u64,
) -> Result<(Option<WalkStop>, u64, u64), Fail> {
    let setup = setup_of(2, 2, 1, MOST_CELLS).ok_or("settings")?;
    let mut planned = changing(alloc, &setup, REFINED, ERASED);
    let mut dv = Scarce::new(vertex_depot(alloc)?, vertices);
    let mut dc = Scarce::new(cell_depot(alloc)?, cells);
    let root = planned.fresh_c()?;
    let stop = walks_as(rt, root, &setup, &mut planned, &mut dv, &mut dc, PLANE);
    check_settles(rt, &mut dv);
    check_settles(rt, &mut dc);
    Ok((stop, dv.grants(), dc.grants()))
}

#[test]
fn each_grant_may_be_wanting(rt: HostRuntime) -> Result<(), Fail> {
    let alloc = rt.alloc();
    let (stop, vertices, cells) = granted(&rt, alloc, MANY, MANY)?;
    assert!(rt; stop == None);
    let vertices = MANY.saturating_sub(vertices);
    let cells = MANY.saturating_sub(cells);
    assert!(rt; vertices > 0 && cells > 0);
    for grants in 0..vertices {
        assert!(rt;
            granted(&rt, alloc, grants, MANY)?.0 == Some(WalkStop::Memory),
            "{grants}"
        );
    }
    for grants in 0..cells {
        assert!(rt;
            granted(&rt, alloc, MANY, grants)?.0 == Some(WalkStop::Memory),
            "{grants}"
        );
    }
    assert!(rt; granted(&rt, alloc, vertices, cells)? == (None, 0, 0));
    Ok(())
}

// A grid on which a vertex is refined and erased.
fn check_changing(
    rt: &impl Abort,
    alloc: Global,
    axes: u8,
    erased: u64,
    rows: &[Row],
    vertices: &Moved,
    cells: &Moved,
) -> Result<(), Fail> {
    let setup = setup_of(axes, 2, 1, MOST_CELLS).ok_or("settings")?;
    let mut planned = changing(alloc, &setup, REFINED, erased);
    let mut dv = vertex_depot(alloc)?;
    let mut dc = cell_depot(alloc)?;
    let root = planned.fresh_c()?;
    let stop = walks_as(rt, root, &setup, &mut planned, &mut dv, &mut dc, rows);
    assert!(rt; stop == None);
    check_moved(rt, &dv, vertices);
    check_moved(rt, &dc, cells);
    check_settles(rt, &mut dv);
    check_settles(rt, &mut dc);
    Ok(())
}

#[test]
fn vertices_are_born_and_die(rt: HostRuntime) -> Result<(), Fail> {
    let vertices = Moved {
        stacks: &[
            (46, 46),
            (61, 61),
            (80, 80),
            (98, 98),
            (0, 0),
            (0, 0),
            (0, 0),
            (0, 0),
            (33, 33),
            (37, 33),
        ],
        fresh: 281,
        most: 12,
    };
    let cells = Moved {
        stacks: &[(54, 54), (63, 54)],
        fresh: 45,
        most: 2,
    };
    check_changing(&rt, rt.alloc(), 2, ERASED, PLANE, &vertices, &cells)
}

#[test]
fn vertices_of_space_are_born_and_die(rt: HostRuntime) -> Result<(), Fail> {
    let vertices = Moved {
        stacks: &[
            (236, 236),
            (311, 311),
            (400, 400),
            (490, 490),
            (680, 680),
            (788, 788),
            (0, 0),
            (0, 0),
            (141, 141),
            (149, 141),
        ],
        fresh: 3117,
        most: 24,
    };
    let cells = Moved {
        stacks: &[(270, 270), (297, 270)],
        fresh: 243,
        most: 2,
    };
    check_changing(&rt, rt.alloc(), 3, 3267, SPACE, &vertices, &cells)
}

#[test]
fn vertices_on_four_axes_are_born_and_die(rt: HostRuntime) -> Result<(), Fail> {
    let vertices = Moved {
        stacks: &[
            (1336, 1336),
            (1711, 1711),
            (2240, 2240),
            (2690, 2690),
            (3760, 3760),
            (4300, 4300),
            (6320, 6320),
            (6968, 6968),
            (657, 657),
            (673, 657),
        ],
        fresh: 38129,
        most: 48,
    };
    let cells = Moved {
        stacks: &[(1458, 1458), (1539, 1458)],
        fresh: 1377,
        most: 2,
    };
    check_changing(&rt, rt.alloc(), 4, 31885, FOUR, &vertices, &cells)
}

// Traversals of a grid whose event of number 2 refines, with a limit of cells.
fn limited(
    rt: &impl Abort,
    alloc: Global,
    setup: &Setup,
    rows: &[Row],
) -> Result<Option<WalkStop>, Fail> {
    let mut planned = changing(alloc, setup, REFINED, NEVER);
    let mut dv = vertex_depot(alloc)?;
    let mut dc = cell_depot(alloc)?;
    let root = planned.fresh_c()?;
    let stop = walks_as(rt, root, setup, &mut planned, &mut dv, &mut dc, rows);
    check_settles(rt, &mut dv);
    check_settles(rt, &mut dc);
    Ok(stop)
}

#[test]
fn one_cell_past_the_limit(rt: HostRuntime) -> Result<(), Fail> {
    let alloc = rt.alloc();
    let whole = &[(90, 0, 68, 68, 0, 88, 2)];
    let passes = setup_of(2, 2, 2, 90).ok_or("settings")?;
    assert!(rt; limited(&rt, alloc, &passes, whole)? == None);
    let stops = setup_of(2, 2, 2, 89).ok_or("settings")?;
    let at = Place {
        level: 2,
        pos: [8, 8, 0, 0],
    };
    assert!(rt; limited(&rt, alloc, &stops, whole)? == Some(WalkStop::CellLimit { at }));
    let refined = &[SPACE[0], SPACE[1]];
    let passes = setup_of(3, 2, 1, 243).ok_or("settings")?;
    assert!(rt; limited(&rt, alloc, &passes, refined)? == None);
    let stops = setup_of(3, 2, 1, 242).ok_or("settings")?;
    let at = Place {
        level: 2,
        pos: [0, 0, 0, 0],
    };
    assert!(rt; limited(&rt, alloc, &stops, refined)? == Some(WalkStop::CellLimit { at }));
    Ok(())
}
