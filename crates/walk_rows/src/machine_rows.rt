//! Worked rows of the walk on stacks, computed on the machine of lists.
ghost use Rattle.std.specs.Prelude.{◌≡◌, [], ◌∷◌, ◌++◌, codes};
ghost use Rattle.walk_rows.specs.Trials.{in_plane, text_of, one_refined, nowhere};
ghost use Rattle.walk_rows.specs.Examples.{twice, counts_of};

// One vertex refined: 25 vertices and 36 cells are born in the second traversal.
fn one_vertex_refined()
    ensures text { (twice (in_plane 5 one_refined nowhere)).text ≡ text_of (in_plane 5 one_refined nowhere) 2 }
    ensures counts { counts_of (twice (in_plane 5 one_refined nowhere)).ending ≡
        (((16, 16) ∷ (21, 21) ∷ (28, 28) ∷ (34, 34) ∷ (0, 0) ∷ (0, 0) ∷ (0, 0) ∷ (0, 0) ∷ (29, 0) ∷ (4, 4) ∷ []), 121, 92, 0, 12)
        ∷ (((45, 0) ∷ (9, 9) ∷ []), 45, 0, 0, 2) ∷ [] }
{}

#[test]
fn the_machine_gives_the_rows() {
    one_vertex_refined();
}
