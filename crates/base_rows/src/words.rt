//! Worked rows of the definitions and of the calls. A function without a body computes the definitions
//! that its contract names; the test that calls it has it checked.
ghost use Rattle.std.specs.Prelude.{◌≡◌, [], ◌∷◌, map, codes, length};
ghost use Rattle.pe_base.specs.declared.way.Way.TheVariants.{Forward, Inverted};
ghost use Rattle.pe_base.specs.declared.event.Event.TheVariants.{EnterCell, BeginIteration, EndIteration, TouchVertexLastTime};
ghost use Rattle.pe_base.specs.Tree.Places.{root, at};
ghost use Rattle.pe_base.specs.Tree.Curve.{children, order};
ghost use Rattle.pe_base.specs.Lines.{place_line, plain_line, done_line, fault_shelf_scenario, fault_at_key, fault_in_body, fault_at_event, fault_cells};

use pe_base::{Dim, Event, List, Sort, Text, Way};

fn children_of_the_root()
    ensures plane { children 2 Forward root ≡ map (at 1)
        ((0 ∷ 0 ∷ []) ∷ (0 ∷ 1 ∷ []) ∷ (0 ∷ 2 ∷ [])
        ∷ (1 ∷ 2 ∷ []) ∷ (1 ∷ 1 ∷ []) ∷ (1 ∷ 0 ∷ [])
        ∷ (2 ∷ 0 ∷ []) ∷ (2 ∷ 1 ∷ []) ∷ (2 ∷ 2 ∷ []) ∷ []) }
    ensures inverted { children 2 Inverted root ≡ map (at 1)
        ((2 ∷ 2 ∷ []) ∷ (2 ∷ 1 ∷ []) ∷ (2 ∷ 0 ∷ [])
        ∷ (1 ∷ 0 ∷ []) ∷ (1 ∷ 1 ∷ []) ∷ (1 ∷ 2 ∷ [])
        ∷ (0 ∷ 2 ∷ []) ∷ (0 ∷ 1 ∷ []) ∷ (0 ∷ 0 ∷ []) ∷ []) }
    ensures all_axes { length (children 4 Forward root) ≡ 81 }
{}

// The tenth cell of level 2 is the first child of (0, 1), a face neighbour of the ninth.
fn turn_between_parents()
    ensures forward { children 2 Forward (at 1 (0 ∷ 0 ∷ [])) ≡ map (at 2)
        ((0 ∷ 0 ∷ []) ∷ (0 ∷ 1 ∷ []) ∷ (0 ∷ 2 ∷ [])
        ∷ (1 ∷ 2 ∷ []) ∷ (1 ∷ 1 ∷ []) ∷ (1 ∷ 0 ∷ [])
        ∷ (2 ∷ 0 ∷ []) ∷ (2 ∷ 1 ∷ []) ∷ (2 ∷ 2 ∷ []) ∷ []) }
    ensures next { children 2 Forward (at 1 (0 ∷ 1 ∷ [])) ≡ map (at 2)
        ((2 ∷ 3 ∷ []) ∷ (2 ∷ 4 ∷ []) ∷ (2 ∷ 5 ∷ [])
        ∷ (1 ∷ 5 ∷ []) ∷ (1 ∷ 4 ∷ []) ∷ (1 ∷ 3 ∷ [])
        ∷ (0 ∷ 3 ∷ []) ∷ (0 ∷ 4 ∷ []) ∷ (0 ∷ 5 ∷ []) ∷ []) }
    ensures level { order 2 Forward 1 ≡ children 2 Forward root }
{}

fn lines()
    ensures cell { place_line 2 EnterCell (at 1 (1 ∷ 2 ∷ [])) ≡ codes "enter_cell 1 1 2\n" }
    ensures plain { plain_line BeginIteration 12 ≡ codes "begin_iteration 12\n" }
    ensures done { done_line ≡ codes "done\n" }
    ensures refusal { fault_shelf_scenario ≡ codes "fault shelf scenario\n" }
    ensures shown { fault_at_key (codes "unknown-key") (codes "max cells") ≡ codes "fault scenario unknown-key max?cells\n" }
    ensures body { fault_in_body EnterCell 7 (codes "syntax") ≡ codes "fault scenario body enter_cell 7 syntax\n" }
    ensures plain_event { fault_at_event (codes "overflow") 2 3 EndIteration root ≡ codes "fault overflow traversal 3 end_iteration\n" }
    ensures event { fault_at_event (codes "division") 2 1 TouchVertexLastTime (at 2 (3 ∷ 4 ∷ [])) ≡ codes "fault division traversal 1 touch_vertex_last_time 2 3 4\n" }
    ensures cells { fault_cells 2 2 (at 2 (2 ∷ 2 ∷ [])) ≡ codes "fault cells traversal 2 2 2 2\n" }
{}

#[test]
fn the_definitions_give_the_rows() {
    children_of_the_root();
    turn_between_parents();
    lines();
}

#[test]
fn the_calls_answer(rt: HostRuntime) {
    assert!(rt; (Dim::new(1), Dim::new(5)) == (None, None));
    for (n, corners, parts) in [(2, 4, 9), (3, 8, 27), (4, 16, 81)] {
        let dim = Dim::new(n).expect(&rt, "a dimension");
        assert!(rt; (dim.axes(), dim.corners(), dim.parts()) == (n, corners, parts));
    }
    assert!(rt; (Way::of(1), Way::of(2)) == (Way::Forward, Way::Inverted));
    let events = (Event::of_name("enter_cell"), Event::of_name("enter"));
    assert!(rt; events == (Some(Event::EnterCell), None));
    let told = (Event::DestroyCell.name(), Event::CreateHangingVertex.sort());
    assert!(rt; told == ("destroy_cell", Sort::Vertex));
}

#[test]
fn texts_and_lists(rt: HostRuntime) {
    let alloc = rt.alloc();
    let text = Text::new("form".to_string(alloc).expect(&rt, "memory"));
    let list = List::new([1, 2].to_vec(alloc).expect(&rt, "memory"));
    assert!(rt; (text.as_str(), list.as_slice()) == ("form", [1, 2].as_slice()));
}
