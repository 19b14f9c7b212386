ghost use Rattle.std.specs.Prelude.{◌≡◌, ◌<◌, ◌≤◌, ◌^◌, length, IsTrue, IfOk, IfSome};
ghost use Rattle.std.specs.Option.{option_copied};
ghost use Rattle.pe_base.specs.Limits.{most_fields};
ghost use Rattle.pe_check.specs.Fits.{name_fits, slot_fits, vertex_fits};
ghost use Rattle.pe_check.specs.Table as table;
ghost use Rattle.pe_check.specs.Resolving.{reach_in, field_of as field_in, behind, of_vertex, read_name, slot_name, vertex_word};

use crate::cause::Cause;
use crate::checked::{Name, Slot, VertexName};
use crate::head::{Head, head_of};
use pe_base::{Dim, Names, Sort, Text};

/// Where names are resolved: the sort of the event, the dimension, and the names of fields.
#[derive(Clone, Copy)]
pub(crate) struct Scope<'a> {
    pub sort: Sort,
    pub dim: Dim,
    pub names: &'a Names,
}

impl Scope<'_> {
    ghost use Rattle.pe_check.specs.Scopes.{context_of};

    /// What a name stands for where it is read.
    pub(crate) fn name(&self, first: &str, second: Option<&str>) -> Result<Name, Cause>
        ensures answer { result ≡ read_name (context_of self.now) first.now (option_copied second.entry) }
        ensures fits { IfOk result (λ name. IsTrue (name_fits (reach_in (context_of self.now)) name)) }
    {
        let Some(head) = head_of(first, self.dim.axes()) else {
            return Err(Cause::UnknownName);
        };
        if !head.is_here(self.sort) {
            return Err(Cause::NotHere);
        }
        if !head.has_corner(self.dim.corners()) {
            return Err(Cause::Corner);
        }
        match self.behind(head, second) {
            Some(name) => Ok(name),
            None => Err(Cause::UnknownName),
        }
    }

    /// What a name stands for where it is assigned.
    pub(crate) fn slot(&self, first: &str, second: Option<&str>) -> Result<Slot, Cause>
        ensures answer { result ≡ slot_name (context_of self.now) first.now (option_copied second.entry) }
        ensures fits { IfOk result (λ slot. IsTrue (slot_fits (reach_in (context_of self.now)) slot)) }
    {
        match self.name(first, second) {
            Ok(Name::Slot(slot)) => Ok(slot),
            Ok(_) => Err(Cause::ReadOnly),
            Err(cause) => Err(cause),
        }
    }

    /// The vertex of which a word behind `refine` or `erase` speaks.
    pub(crate) fn vertex(&self, word: &str) -> Result<VertexName, Cause>
        ensures answer { result ≡ vertex_word (context_of self.now) word.now }
        ensures fits { IfOk result (λ vertex. IsTrue (vertex_fits (reach_in (context_of self.now)) vertex)) }
    {
        let Some(Head::Vertex(vertex)) = head_of(word, self.dim.axes()) else {
            return Err(Cause::UnknownName);
        };
        let head = Head::Vertex(vertex);
        if !head.is_here(self.sort) {
            return Err(Cause::NotHere);
        }
        if !head.has_corner(self.dim.corners()) {
            return Err(Cause::Corner);
        }
        Ok(vertex)
    }

    /// What a first word and what stands behind it stand for, if that may stand there.
    fn behind(&self, head: Head, second: Option<&str>) -> Option<Name>
        requires here { IsTrue (table.is_here self.now.sort head) }
        requires corner { IsTrue (table.has_corner (2 ^ self.now.dim) head) }
        ensures answer { result ≡ behind (context_of self.now) head (option_copied second.entry) }
    {
        match (head, second) {
            (Head::Traversal, None) => Some(Name::Traversal),
            (Head::Level, None) => Some(Name::Level),
            (Head::Axis(axis), None) => Some(Name::Axis(axis)),
            (Head::Global, Some(word)) => field_of(self.names.global.as_slice(), word).map(
                |field| Name::Slot(Slot::Global(field)),
            ),
            (Head::Vertex(vertex), Some(word)) => self.of_vertex(vertex, word),
            (Head::Cell, Some(word)) => field_of(self.names.cell.as_slice(), word).map(
                |field| Name::Slot(Slot::Cell(field)),
            ),
            (Head::Parent, Some(word)) => field_of(self.names.cell.as_slice(), word).map(
                |field| Name::Slot(Slot::Parent(field)),
            ),
            _ => None,
        }
    }

    /// What is asked of a vertex.
    fn of_vertex(&self, vertex: VertexName, word: &str) -> Option<Name>
        ensures { result ≡ of_vertex (context_of self.now) vertex word.now }
    {
        if word == "state" {
            return Some(Name::State(vertex));
        }
        if word == "kind" {
            return Some(Name::Kind(vertex));
        }
        field_of(self.names.vertex.as_slice(), word).map(|field| Name::Slot(Slot::Vertex(
            vertex, field,
        )))
    }
}

/// The number of a field.
fn field_of(fields: &[Text], word: &str) -> Option<u8>
    requires { length fields.now ≤ most_fields }
    ensures value { result ≡ field_in fields.now word.now }
    ensures inside { IfSome result (λ field. field < length fields.now) }
{
    for (i, field) in fields.iter().enumerate() {
        if field.as_str() == word {
            return Some(i as u8);
        }
    }
    None
}
