//! The events of a mill in the plane as bodies, read from the texts that a scenario has.
ghost use Rattle.std.specs.Prelude.{◌≡◌, length, IsTrue, IfOk};
ghost use Rattle.pe_check.specs.Fits.{fits};
ghost use Rattle.pe_base.specs.declared.event.Event.TheVariants as event;
ghost use Rattle.bench_eval.specs.Mill.{reach_at};

use pe_base::{Dim, Event, List, Names, Text};
use pe_check::{Checked, check, fits_widen};
use pe_lex::lex;
use pe_parse::parse;
use std::alloc::{AllocError, Global};
use std::io;
use std::io::ErrorKind;

const TOUCH: &str =
    "v.u = v.u + 1; if (x0 + 2 * x1 + 6) % 4 == 0 { refine v; } if (x0 + 2 * x1 + 6 + t) % 9 == 0 { erase v; }";

const ENTER: &str = "cell.c = cell.c + 1; global.s = global.s + 1;";

const END: &str = "print t, global.s;";

/// The bodies of three events.
#[derive(Drop)]
pub struct Bodies {
    /// At the last touch of a vertex it is counted, and asked to refine or to erase by its place.
    pub touch: Checked,
    /// When a cell is entered it is counted, alone and with all others.
    pub enter: Checked,
    /// After the root the count of all cells is printed.
    pub end: Checked,
    ghost touches: { IsTrue (fits (reach_at event.TouchVertexLastTime) touch) },
    ghost enters: { IsTrue (fits (reach_at event.EnterCell) enter) },
    ghost ends: { IsTrue (fits (reach_at event.EndIteration) end) },
}

/// The bodies, with their names resolved in the plane.
pub fn read_bodies(alloc: Global, dim: Dim) -> io::Result<Bodies>
    requires { dim ≡ 2 }
{
    Ok(Bodies {
        touch: body(alloc, Event::TouchVertexLastTime, TOUCH, dim)?,
        enter: body(alloc, Event::EnterCell, ENTER, dim)?,
        end: body(alloc, Event::EndIteration, END, dim)?,
    })
}

fn body(alloc: Global, event: Event, text: &str, dim: Dim) -> io::Result<Checked>
    requires { dim ≡ 2 }
    ensures { IfOk result (λ body. IsTrue (fits (reach_at event) body)) }
{
    let names = names(alloc)?;
    let Ok(tokens) = lex(alloc, text) else {
        return Err(io::Error::from(ErrorKind::InvalidData));
    };
    let Ok(tree) = parse(alloc, text, tokens.as_slice()) else {
        return Err(io::Error::from(ErrorKind::InvalidData));
    };
    // What is checked fits where eight numbers of each kind are lent.
    fits_widen();
    match check(alloc, tree, event, &names, dim) {
        Ok(body) => Ok(body),
        Err(_) => Err(io::Error::from(ErrorKind::InvalidData)),
    }
}

/// One number of each kind.
fn names(alloc: Global) -> Result<Names, AllocError> {
    Ok(Names {
        vertex: one(alloc, "u")?,
        cell: one(alloc, "c")?,
        global: one(alloc, "s")?,
    })
}

fn one(alloc: Global, word: &str) -> Result<List<Text>, AllocError>
    ensures { IfOk result (λ list. length list ≡ 1) }
{
    let mut list = Vec::new(alloc);
    list.push(Text::new(String::from_str(alloc, word)?))?;
    Ok(List::new(list))
}
