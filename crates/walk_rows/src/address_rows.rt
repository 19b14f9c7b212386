//! Worked rows of the walk by address, computed on its definitions. A function without a body computes the definitions
//! that its contract names; the test that calls it has it checked.
ghost use Rattle.std.specs.Prelude.{◌≡◌, not, ◌&&◌, ◌||◌, ◌==◌, nat_lt, ◌+◌, ◌-◌, ◌^◌, [], ◌∷◌, codes, take, pos, Some, None};
ghost use Rattle.pe_base.specs.declared.event.Event.TheVariants.{EnterCell, CreateHangingVertex};
ghost use Rattle.pe_base.specs.declared.state.State.TheVariants.{Unrefined};
ghost use Rattle.pe_base.specs.Tree.Places.{at};
ghost use Rattle.pe_base.specs.Walk.Course.{halts, limit_at};
ghost use Rattle.walk_rows.specs.Trials.{quiet, trial_run, x_of, joined, behind_text, nowhere, in_plane, text_of, text_of_start, last_line, one_refined, one_erased, is_at, any, counting_run, left_by};

fn cells_there_and_back()
    ensures forward { text_of (quiet 2 1 (EnterCell ∷ [])) 1 ≡
        joined (codes "enter_cell 1 0 0\n"
        ∷ codes "enter_cell 1 0 1\n"
        ∷ codes "enter_cell 1 0 2\n"
        ∷ codes "enter_cell 1 1 2\n"
        ∷ codes "enter_cell 1 1 1\n"
        ∷ codes "enter_cell 1 1 0\n"
        ∷ codes "enter_cell 1 2 0\n"
        ∷ codes "enter_cell 1 2 1\n"
        ∷ codes "enter_cell 1 2 2\n"
        ∷ codes "traversal 1 forward cells 9 in 0 out 4 created 4 destroyed 0 hanging 20\n" ∷ []) }
    ensures inverted { behind_text (text_of (quiet 2 1 (EnterCell ∷ [])) 1) (text_of (quiet 2 1 (EnterCell ∷ [])) 2) ≡
        joined (codes "enter_cell 1 2 2\n"
        ∷ codes "enter_cell 1 2 1\n"
        ∷ codes "enter_cell 1 2 0\n"
        ∷ codes "enter_cell 1 1 0\n"
        ∷ codes "enter_cell 1 1 1\n"
        ∷ codes "enter_cell 1 1 2\n"
        ∷ codes "enter_cell 1 0 2\n"
        ∷ codes "enter_cell 1 0 1\n"
        ∷ codes "enter_cell 1 0 0\n"
        ∷ codes "traversal 2 inverted cells 9 in 4 out 4 created 0 destroyed 0 hanging 20\n" ∷ []) }
{}

fn vertices_of_level_one()
    ensures hanging { take 84 (text_of (quiet 2 1 (CreateHangingVertex ∷ [])) 1) ≡
        joined (codes "create_hanging_vertex 1 0 1\n"
        ∷ codes "create_hanging_vertex 1 1 0\n"
        ∷ codes "create_hanging_vertex 1 0 0\n" ∷ []) }
    ensures space { text_of (quiet 3 1 []) 1 ≡
        codes "traversal 1 forward cells 27 in 0 out 8 created 8 destroyed 0 hanging 152\n" }
    ensures four_axes { (trial_run (quiet 4 1 []) 1 3 1).ending ≡
        halts (limit_at (at 1 (0 ∷ 0 ∷ 1 ∷ 2 ∷ []))) }
{}

fn one_vertex_refined_and_erased()
    ensures refined { text_of (in_plane 5 one_refined nowhere) 2 ≡
        joined (codes "traversal 1 forward cells 9 in 0 out 4 created 4 destroyed 0 hanging 20\n"
        ∷ codes "traversal 2 inverted cells 45 in 4 out 29 created 25 destroyed 0 hanging 64\n" ∷ []) }
    ensures erased { text_of (in_plane 5 one_refined one_erased) 5 ≡
        joined (codes "traversal 1 forward cells 9 in 0 out 4 created 4 destroyed 0 hanging 20\n"
        ∷ codes "traversal 2 inverted cells 45 in 4 out 29 created 25 destroyed 0 hanging 64\n"
        ∷ codes "traversal 3 forward cells 45 in 29 out 29 created 0 destroyed 0 hanging 64\n"
        ∷ codes "traversal 4 inverted cells 45 in 29 out 4 created 0 destroyed 25 hanging 64\n"
        ∷ codes "traversal 5 forward cells 9 in 4 out 4 created 0 destroyed 0 hanging 20\n" ∷ []) }
    ensures two_refined { text_of (in_plane 5 (λ t place. t == 1 && is_at 1 any (λ y. y == 1) place) nowhere) 2 ≡
        joined (codes "traversal 1 forward cells 9 in 0 out 4 created 4 destroyed 0 hanging 20\n"
        ∷ codes "traversal 2 inverted cells 63 in 4 out 44 created 40 destroyed 0 hanging 76\n" ∷ []) }
{}

fn a_vertex_below_a_refined_one()
    ensures born { text_of (in_plane 20 (λ t place. one_refined t place || t == 2 && is_at 2 (λ x. x == 3) (λ y. y == 3) place) nowhere) 3 ≡
        joined (codes "traversal 1 forward cells 9 in 0 out 4 created 4 destroyed 0 hanging 20\n"
        ∷ codes "traversal 2 inverted cells 45 in 4 out 29 created 25 destroyed 0 hanging 64\n"
        ∷ codes "traversal 3 forward cells 81 in 29 out 54 created 25 destroyed 0 hanging 108\n" ∷ []) }
    ensures band { text_of (in_plane 5 (λ t place. x_of 0 place == 3 ^ (place.level - 1)) (λ t place. not (x_of 0 place == 3 ^ (place.level - 1)))) 2 ≡
        joined (codes "traversal 1 forward cells 9 in 0 out 4 created 4 destroyed 0 hanging 20\n"
        ∷ codes "traversal 2 inverted cells 63 in 4 out 44 created 40 destroyed 0 hanging 76\n" ∷ []) }
{}

fn two_levels_at_the_start()
    ensures whole { text_of_start 2 1 ≡
        codes "traversal 1 forward cells 90 in 0 out 68 created 68 destroyed 0 hanging 88\n" }
    ensures entered { last_line 17 (trial_run (quiet 2 20 (EnterCell ∷ [])) 2 81 1) ≡
        (81, codes "enter_cell 1 2 2\n", halts (limit_at (at 2 (6 ∷ 6 ∷ [])))) }
{}

fn cells_past_the_limit()
    ensures within { (trial_run (in_plane 5 (λ t place. t == 1 && place.level == 1 && nat_lt (x_of 0 place + x_of 1 place) 4) nowhere) 1 81 2).text ≡
        joined (codes "traversal 1 forward cells 9 in 0 out 4 created 4 destroyed 0 hanging 20\n"
        ∷ codes "traversal 2 inverted cells 81 in 4 out 59 created 55 destroyed 0 hanging 88\n" ∷ []) }
    ensures past { (trial_run (in_plane 5 (λ t place. t == 1) nowhere) 1 81 2).ending ≡
        halts (limit_at (at 2 (2 ∷ 2 ∷ []))) }
{}

fn numbers_through_four_traversals()
    ensures third { left_by (at 2 (3 ∷ 3 ∷ [])) (at 1 (0 ∷ 0 ∷ [])) (counting_run (in_plane 2 one_refined one_erased) 3).ending ≡
        Some (Some (record { state = Unrefined; numbers = pos 2 ∷ [] }), Some (pos 21 ∷ []), pos 27 ∷ [], pos 189 ∷ []) }
    ensures fourth { left_by (at 2 (3 ∷ 3 ∷ [])) (at 1 (0 ∷ 0 ∷ [])) (counting_run (in_plane 2 one_refined one_erased) 4).ending ≡
        Some (None, Some (pos 31 ∷ []), pos 36 ∷ [], pos 257 ∷ []) }
{}

#[test]
fn the_definitions_give_the_rows() {
    cells_there_and_back();
    vertices_of_level_one();
    one_vertex_refined_and_erased();
    a_vertex_below_a_refined_one();
    two_levels_at_the_start();
    cells_past_the_limit();
    numbers_through_four_traversals();
}
