//! Worked rows of jobs as data. A function without a body computes the definitions that its contract names; the test that
//! calls it has it checked.
ghost use Rattle.std.specs.Prelude.{◌≡◌, [], ◌∷◌, codes, Some, None, Ok, Err, ℕ, List};
ghost use Rattle.pe_io.specs.Shelf.{Contents};
ghost use Rattle.pe_scene.specs.declared.fault.SceneFault.TheVariants.{TooLong};
ghost use Rattle.pe_words.specs.declared.job.Job.TheVariants.{Run};
ghost use Rattle.pe_run.specs.declared.refusal.Stage.TheVariants.{Scenario as ScenarioStage};
ghost use Rattle.pe_run.specs.declared.refusal.Fault.TheVariants.{Scenario};
ghost use Rattle.pe_run.specs.declared.refusal.Refusal.TheVariants.{NoShelf, Fault};
ghost use Rattle.pe_run.specs.Reads.{read, MayGive};
ghost use Rattle.pe_run.specs.Tasks.{task_for};
ghost use Rattle.pe_run.specs.Run.{run_job};
ghost use Rattle.run_rows.specs.Files.{two_files};

use crate::files::{Unread, two_files};
use pe_io::MemShelf;

// What a job writes last, its status, and its names.
fn how_jobs_end()
    ensures no_job { run_job (task_for None) (λ name. None) None ≡ record { text = []; last = codes "fault words\n"; status = 2 } }
    ensures no_name { (task_for None).names ≡ [] }
    ensures not_held { run_job (task_for (Some (Run (codes "S")))) (λ name. None) None ≡ record { text = []; last = codes "fault shelf scenario\n"; status = 6 } }
    ensures failed { run_job (task_for (Some (Run (codes "S")))) (λ name. Some []) (Some ScenarioStage) ≡ record { text = []; last = codes "fault shelf scenario\n"; status = 6 } }
    ensures one_name { (task_for (Some (Run (codes "S")))).names ≡ codes "S" ∷ [] }
{}

// The second file is asked for only where the first one is not refused.
fn what_two_files_give()
    ensures both { read (two_files (codes "A") (codes "B")) (λ name. Some name) None ≡ Ok (codes "A", codes "B") }
    ensures first_too_long { read (two_files (codes "A") (codes "B")) (λ name. Some (1 ∷ 2 ∷ 3 ∷ 4 ∷ 5 ∷ [])) None ≡ Err (Fault (Scenario TooLong)) }
    ensures not_held { read (two_files (codes "A") (codes "B")) (λ name. None) None ≡ Err (NoShelf ScenarioStage) }
{}

// A shelf that tells nothing may give two contents for one name; one that tells them gives what it tells.
fn two_contents_of_one_name()
    ensures untold { MayGive None (λ name. ⊥) (two_files (codes "A") (codes "A")) (Ok (1 ∷ [], 2 ∷ [])) }
    ensures told { (held : Contents) → MayGive (Some held) (λ name. ⊥) (two_files (codes "A") (codes "A")) (Ok (1 ∷ [], 2 ∷ [])) → ⊥ }
{}

#[test]
fn the_definitions_give_the_rows() {
    how_jobs_end();
    what_two_files_give();
    two_contents_of_one_name();
}

#[test]
fn a_second_file_is_not_read_before_the_first_is_checked(rt: HostRuntime) {
    let alloc = rt.alloc();
    let mut shelf = MemShelf::new(alloc, &[]).expect(&rt, "memory");
    shelf.add(alloc, "A", b"12345").expect(&rt, "memory");
    shelf.add(alloc, "B", b"1234").expect(&rt, "memory");
    assert!(rt; two_files("A", "C", &mut shelf).err() == Some(Unread::TooMany));
    assert!(rt; two_files("B", "C", &mut shelf).err() == Some(Unread::NotHeld));
    assert!(rt; two_files("B", "B", &mut shelf).is_ok());
}
