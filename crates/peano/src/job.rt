//! The words of a command line, and the run that they ask for.
ghost use Rattle.std.specs.Prelude.{◌≡◌, ◌≤◌, ◌+◌, map, drop, length, string_bytes, IfOk, IfErr, OnErr};
ghost use Rattle.std.specs.Vec.Iter.{into_iter_items};
ghost use Rattle.pe_io.specs.Sink.{told_by};
ghost use Rattle.pe_run.specs.Tasks.{task_of};
ghost use Rattle.peano.specs.Job.{IsJob, Refuses};

use pe_base::Fields;
use pe_io::{Shelf, Sink};
use pe_run::peano;
use pe_stacks::{CellRec, VecDepot, Vertex};
use std::alloc::{AllocError, Global};
use std::env::Args;
use std::io;
use std::io::ErrorKind;

/// The status where a word is not UTF-8, so that the words name no job.
const NO_JOB: u8 = 2;

/// The status where there is no memory for the words or for the depots.
const NO_MEMORY: u8 = 9;

/// The words behind the program's name.
fn words_of(alloc: Global, args: Args) -> Result<Vec<String>, AllocError>
    ensures { IfOk result (λ words. words.items ≡ drop 1 (into_iter_items args)) }
{
    args.skip(1).collect(alloc)
}

/// The status where the words of the command line cannot be had.
fn refusal_of(fault: &io::Error) -> u8
    ensures { Refuses fault.now result }
{
    if fault.kind() == ErrorKind::InvalidData {
        NO_JOB
    } else {
        NO_MEMORY
    }
}

/// Runs the words over two new depots.
fn run<H: Shelf, K: Sink>(alloc: Global, words: &[String], shelf: &mut H, sink: &mut K) -> u8
    ensures job { IsJob (task_of (map string_bytes words.now)) (H.contents shelf.old) (H.faults shelf.old) (H.faults shelf.new) (H.last_failed shelf.new)
        (told_by K.text K.writes K.faults sink.old) (told_by K.text K.writes K.faults sink.new) result }
    ensures shelf_calls { H.calls shelf.new ≤ H.calls shelf.old + length (task_of (map string_bytes words.now)).names }
{
    let Ok(mut vertices) = VecDepot::<Vertex<Fields>>::new(alloc, 10) else {
        return NO_MEMORY;
    };
    let Ok(mut cells) = VecDepot::<CellRec<Fields>>::new(alloc, 2) else {
        return NO_MEMORY;
    };
    peano(alloc, words, shelf, sink, &mut vertices, &mut cells)
}

/// Runs the words of the command line, and answers the exit status. Where they cannot be had, nothing is written
/// and the shelf is not asked.
pub fn status_of<H: Shelf, K: Sink>(
    alloc: Global,
    args: io::Result<Args>,
    shelf: &mut H,
    sink: &mut K,
) -> u8
    ensures job { IfOk args (λ given. IsJob (task_of (map string_bytes (drop 1 (into_iter_items given)))) (H.contents shelf.old) (H.faults shelf.old)
        (H.faults shelf.new) (H.last_failed shelf.new) (told_by K.text K.writes K.faults sink.old) (told_by K.text K.writes K.faults sink.new) result) }
    ensures shelf_calls { IfOk args (λ given. H.calls shelf.new ≤ H.calls shelf.old + length (task_of (map string_bytes (drop 1 (into_iter_items given)))).names) }
    ensures refused { IfErr args (λ fault. Refuses fault result) }
    ensures silent { OnErr args ((K.text sink.new ≡ K.text sink.old) × (H.calls shelf.new ≡ H.calls shelf.old)) }
{
    match args {
        Ok(given) => match words_of(alloc, given) {
            Ok(words) => run(alloc, &words, shelf, sink),
            Err(_) => NO_MEMORY,
        },
        Err(fault) => refusal_of(&fault),
    }
}
