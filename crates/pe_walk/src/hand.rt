ghost use Rattle.std.specs.Prelude.{◌≡◌, ◌+◌, ◌-◌, ◌≤◌, ◌^◌, false};
ghost use Rattle.pe_stacks.specs.Corners.{no_vertices};
ghost use Rattle.pe_stacks.specs.Filled.{FullFrom};
ghost use Rattle.pe_stacks.specs.RecordsOut.{RecordsOut};
ghost use Rattle.pe_walk.specs.GivenUp.{given_up_times};

use pe_base::Dim;
use pe_stacks::{Corners, Depot, Vertex};

/// Gives up the corners from a number on, which are all that there are.
pub(crate) fn give_up_from<V, D: Depot<Vertex<V>>>(
    dim: Dim,
    first: u8,
    corners: &mut Corners<V>,
    vertices: &mut D,
)
    requires full { FullFrom dim first corners.old }
    requires out { 2 ^ dim ≤ (D.holds vertices.old).out + first }
    ensures emptied { corners.new ≡ no_vertices dim }
    ensures holds { D.holds vertices.new ≡ given_up_times (2 ^ dim - first) (D.holds vertices.old) }
    ensures left { RecordsOut (2 ^ dim - first) 0 (D.holds vertices.old) (D.room vertices.old) (D.holds vertices.new) (D.room vertices.new) false }
{
    for k in first..dim.corners() {
        vertices.give_up(corners.take(k));
    }
}
