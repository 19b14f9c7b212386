//! Laws of what words name. They are about the definitions, and the function does nothing.
ghost use Rattle.std.specs.Prelude.{◌≡◌, ◌&&◌, ℕ, List, [], ◌∷◌, Some, true, codes};
ghost use Rattle.std.specs.Str.{bytes_eq};
ghost use Rattle.pe_words.specs.declared.job.Job.TheVariants.{Run};
ghost use Rattle.pe_words.specs.Words.{is_name, job_of};
ghost use Rattle.pe_words.specs.Examples.{Examples};

/// The word `run` and any name are the job that walks the scenario of this name, and some other words, written
/// out, name what stands beside them.
pub fn named_jobs()
    ensures name { (job name : List ℕ) → (bytes_eq job (codes "run") && is_name name) ≡ true → job_of (job ∷ name ∷ []) ≡ Some (Run name) }
    ensures examples { Examples }
{}
