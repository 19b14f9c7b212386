//! Worked rows of the lists of faces, in the plane, two levels deep. They come from a plain program that finds, for each
//! load of a vertex, the cell before it around the vertex, and for each store the cell behind it.
ghost use Rattle.std.specs.Prelude.{◌≡◌, [], ◌∷◌, map, false};
ghost use Rattle.pe_base.specs.declared.way.Way.TheVariants.{Forward, Inverted};
ghost use Rattle.pe_base.specs.Tree.Places.{at, root};
ghost use Rattle.pe_base.specs.Steps.Faces.{arriving, leaving, face_on};
ghost use Rattle.pe_order.specs.Takings.{reads_of, writes_of};
ghost use Rattle.pe_order.specs.Outlooks.{outlook};
ghost use Rattle.walk_rows.specs.Grids.{half_erased, half_erased_streams, half_kept, half_kept_streams, after_traversal, on_outputs, counted_of, regular, refined_once, everywhere, point, on_stack};

fn whole_grid_forward()
    ensures arriving_0 { on_stack arriving Forward regular 0 0 ≡
        [] ∷ [] ∷ [] ∷ [] ∷ [] ∷ [] ∷ (point 1 2 1 ∷ point 2 6 1 ∷ point 2 6 2 ∷ point 2 6 3 ∷ [])
        ∷ (point 1 2 2 ∷ point 2 6 4 ∷ point 2 6 5 ∷ point 2 6 6 ∷ []) ∷ (point 2 6 7 ∷ point 2 6 8 ∷ []) ∷ [] }
    ensures leaving_0 { on_stack leaving Forward regular 0 0 ≡
        [] ∷ [] ∷ [] ∷ (point 2 6 7 ∷ point 2 6 8 ∷ []) ∷ (point 1 2 2 ∷ point 2 6 4 ∷ point 2 6 5 ∷ point 2 6 6 ∷ [])
        ∷ (point 1 2 1 ∷ point 2 6 1 ∷ point 2 6 2 ∷ point 2 6 3 ∷ []) ∷ [] ∷ [] ∷ [] ∷ [] }
    ensures arriving_1 { on_stack arriving Forward regular 0 1 ≡
        [] ∷ [] ∷ [] ∷ (point 1 1 2 ∷ point 2 3 8 ∷ point 2 3 7 ∷ point 2 3 6 ∷ [])
        ∷ (point 1 1 1 ∷ point 2 3 5 ∷ point 2 3 4 ∷ point 2 3 3 ∷ []) ∷ (point 2 3 2 ∷ point 2 3 1 ∷ []) ∷ [] ∷ []
        ∷ [] ∷ [] }
    ensures leaving_1 { on_stack leaving Forward regular 0 1 ≡
        (point 2 3 2 ∷ point 2 3 1 ∷ []) ∷ (point 1 1 1 ∷ point 2 3 5 ∷ point 2 3 4 ∷ point 2 3 3 ∷ [])
        ∷ (point 1 1 2 ∷ point 2 3 8 ∷ point 2 3 7 ∷ point 2 3 6 ∷ []) ∷ [] ∷ [] ∷ [] ∷ [] ∷ [] ∷ [] ∷ [] }
    ensures arriving_2 { on_stack arriving Forward regular 1 0 ≡
        [] ∷ [] ∷ (point 1 1 2 ∷ point 2 1 6 ∷ point 2 2 6 ∷ point 2 3 6 ∷ []) ∷ []
        ∷ (point 1 2 2 ∷ point 1 1 2 ∷ point 2 6 6 ∷ point 2 5 6 ∷ point 2 4 6 ∷ point 2 3 6 ∷ []) ∷ [] ∷ [] ∷ []
        ∷ (point 1 2 2 ∷ point 2 7 6 ∷ point 2 6 6 ∷ point 2 8 6 ∷ []) ∷ [] }
    ensures leaving_2 { on_stack leaving Forward regular 1 0 ≡
        [] ∷ (point 1 1 2 ∷ point 2 1 6 ∷ point 2 2 6 ∷ point 2 3 6 ∷ []) ∷ []
        ∷ (point 1 2 2 ∷ point 1 1 2 ∷ point 2 6 6 ∷ point 2 5 6 ∷ point 2 4 6 ∷ point 2 3 6 ∷ []) ∷ [] ∷ [] ∷ []
        ∷ (point 1 2 2 ∷ point 2 7 6 ∷ point 2 6 6 ∷ point 2 8 6 ∷ []) ∷ [] ∷ [] }
    ensures arriving_3 { on_stack arriving Forward regular 1 1 ≡
        [] ∷ (point 1 1 1 ∷ point 2 3 3 ∷ point 2 2 3 ∷ point 2 1 3 ∷ []) ∷ [] ∷ [] ∷ []
        ∷ (point 1 2 1 ∷ point 1 1 1 ∷ point 2 4 3 ∷ point 2 3 3 ∷ point 2 5 3 ∷ point 2 6 3 ∷ []) ∷ []
        ∷ (point 1 2 1 ∷ point 2 8 3 ∷ point 2 7 3 ∷ point 2 6 3 ∷ []) ∷ [] ∷ [] }
    ensures leaving_3 { on_stack leaving Forward regular 1 1 ≡
        (point 1 1 1 ∷ point 2 3 3 ∷ point 2 2 3 ∷ point 2 1 3 ∷ []) ∷ [] ∷ [] ∷ []
        ∷ (point 1 2 1 ∷ point 1 1 1 ∷ point 2 4 3 ∷ point 2 3 3 ∷ point 2 5 3 ∷ point 2 6 3 ∷ []) ∷ []
        ∷ (point 1 2 1 ∷ point 2 8 3 ∷ point 2 7 3 ∷ point 2 6 3 ∷ []) ∷ [] ∷ [] ∷ [] }
{}

fn refined_grid_inverted()
    ensures arriving_0 { on_stack arriving Inverted refined_once 0 0 ≡
        [] ∷ [] ∷ [] ∷ (point 1 2 1 ∷ []) ∷ (point 1 2 2 ∷ []) ∷ [] ∷ [] ∷ [] ∷ [] ∷ [] }
    ensures leaving_0 { on_stack leaving Inverted refined_once 0 0 ≡
        [] ∷ (point 1 2 2 ∷ []) ∷ (point 1 2 1 ∷ []) ∷ [] ∷ [] ∷ [] ∷ [] ∷ [] ∷ [] ∷ [] }
    ensures arriving_1 { on_stack arriving Inverted refined_once 0 1 ≡
        [] ∷ [] ∷ [] ∷ [] ∷ [] ∷ [] ∷ (point 1 1 2 ∷ [])
        ∷ (point 1 1 1 ∷ point 2 3 5 ∷ point 2 3 4 ∷ point 2 3 3 ∷ []) ∷ (point 2 3 2 ∷ point 2 3 1 ∷ []) ∷ [] }
    ensures leaving_1 { on_stack leaving Inverted refined_once 0 1 ≡
        [] ∷ [] ∷ [] ∷ (point 2 3 2 ∷ point 2 3 1 ∷ []) ∷ (point 1 1 1 ∷ point 2 3 5 ∷ point 2 3 4 ∷ point 2 3 3 ∷ [])
        ∷ (point 1 1 2 ∷ []) ∷ [] ∷ [] ∷ [] ∷ [] }
    ensures arriving_2 { on_stack arriving Inverted refined_once 1 0 ≡
        [] ∷ (point 1 2 2 ∷ []) ∷ [] ∷ [] ∷ [] ∷ (point 1 2 2 ∷ point 1 1 2 ∷ []) ∷ [] ∷ (point 1 1 2 ∷ []) ∷ []
        ∷ [] }
    ensures leaving_2 { on_stack leaving Inverted refined_once 1 0 ≡
        (point 1 2 2 ∷ []) ∷ [] ∷ [] ∷ [] ∷ (point 1 2 2 ∷ point 1 1 2 ∷ []) ∷ [] ∷ (point 1 1 2 ∷ []) ∷ [] ∷ []
        ∷ [] }
    ensures arriving_3 { on_stack arriving Inverted refined_once 1 1 ≡
        [] ∷ [] ∷ (point 1 2 1 ∷ []) ∷ [] ∷ (point 1 2 1 ∷ point 1 1 1 ∷ point 2 4 3 ∷ point 2 3 3 ∷ point 2 5 3 ∷ [])
        ∷ [] ∷ [] ∷ [] ∷ (point 1 1 1 ∷ point 2 3 3 ∷ point 2 2 3 ∷ point 2 1 3 ∷ []) ∷ [] }
    ensures leaving_3 { on_stack leaving Inverted refined_once 1 1 ≡
        [] ∷ (point 1 2 1 ∷ []) ∷ [] ∷ (point 1 2 1 ∷ point 1 1 1 ∷ point 2 4 3 ∷ point 2 3 3 ∷ point 2 5 3 ∷ []) ∷ []
        ∷ [] ∷ [] ∷ (point 1 1 1 ∷ point 2 3 3 ∷ point 2 2 3 ∷ point 2 1 3 ∷ []) ∷ [] ∷ [] }
{}

// A cell of space, at its face in the plane 1 of axis 1 and at that in the plane 2 of that axis.
fn cell_of_space()
    ensures arriving { arriving 3 Forward everywhere 1 (face_on 1 1 (at 1 (0 ∷ 1 ∷ 1 ∷ []))) (at 1 (0 ∷ 1 ∷ 1 ∷ [])) ≡
        at 1 (1 ∷ 1 ∷ 1 ∷ []) ∷ map (at 2)
        ((1 ∷ 3 ∷ 5 ∷ []) ∷ (1 ∷ 3 ∷ 4 ∷ []) ∷ (1 ∷ 3 ∷ 3 ∷ []) ∷ (2 ∷ 3 ∷ 4 ∷ []) ∷ (2 ∷ 3 ∷ 3 ∷ [])
        ∷ (2 ∷ 3 ∷ 5 ∷ []) ∷ (3 ∷ 3 ∷ 5 ∷ []) ∷ (3 ∷ 3 ∷ 4 ∷ []) ∷ (3 ∷ 3 ∷ 3 ∷ []) ∷ []) }
    ensures leaving { leaving 3 Forward everywhere 1 (face_on 1 0 (at 1 (0 ∷ 1 ∷ 1 ∷ []))) (at 1 (0 ∷ 1 ∷ 1 ∷ [])) ≡
        at 1 (1 ∷ 2 ∷ 2 ∷ []) ∷ map (at 2)
        ((3 ∷ 6 ∷ 4 ∷ []) ∷ (2 ∷ 6 ∷ 4 ∷ []) ∷ (3 ∷ 6 ∷ 5 ∷ []) ∷ (2 ∷ 6 ∷ 5 ∷ []) ∷ (3 ∷ 6 ∷ 6 ∷ [])
        ∷ (2 ∷ 6 ∷ 6 ∷ []) ∷ (1 ∷ 6 ∷ 6 ∷ []) ∷ (1 ∷ 6 ∷ 5 ∷ []) ∷ (1 ∷ 6 ∷ 4 ∷ []) ∷ []) }
{}

// A traversal with births and deaths, inverted: its streams, what the places on stacks come to, and what is counted.
fn half_erased_inverted()
    ensures reads { reads_of (outlook 1 half_erased false) 2 root ≡ half_erased_streams.read }
    ensures writes { writes_of (outlook 1 half_erased false) 2 root ≡ half_erased_streams.written }
    ensures places { after_traversal half_erased half_erased_streams ≡ on_outputs half_erased_streams (29 ∷ 29 ∷ 46 ∷ 46 ∷ 29 ∷ 29 ∷ 46 ∷ 46 ∷ 113 ∷ 113 ∷ 0 ∷ 12 ∷ []) }
    ensures counted { counted_of half_erased ≡ 72 ∷ 29 ∷ 29 ∷ 21 ∷ 21 ∷ 88 ∷ 2 ∷ [] }
{}

// Another, forward.
fn half_kept_forward()
    ensures reads { reads_of (outlook 1 half_kept false) 2 root ≡ half_kept_streams.read }
    ensures writes { writes_of (outlook 1 half_kept false) 2 root ≡ half_kept_streams.written }
    ensures places { after_traversal half_kept half_kept_streams ≡ on_outputs half_kept_streams (36 ∷ 33 ∷ 56 ∷ 52 ∷ 36 ∷ 33 ∷ 56 ∷ 52 ∷ 101 ∷ 107 ∷ 0 ∷ 12 ∷ []) }
    ensures counted { counted_of half_kept ≡ 81 ∷ 50 ∷ 44 ∷ 9 ∷ 15 ∷ 88 ∷ 2 ∷ [] }
{}

#[test]
fn the_definitions_give_the_rows() {
    whole_grid_forward();
    cell_of_space();
    refined_grid_inverted();
    half_erased_inverted();
    half_kept_forward();
}
