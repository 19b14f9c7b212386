ghost use Rattle.std.specs.Prelude.{◌≡◌, IfSome, IsTrue};
ghost use Rattle.pe_check.specs.Table as table;

use crate::checked::VertexName;
use pe_base::Sort;

/// What the first word of a name speaks of.
#[derive(Clone, Copy, Debug, PartialEq, Eq)]
pub enum Head {
    /// The number of the traversal.
    Traversal,
    /// The numbers of the whole grid.
    Global,
    /// The level of the place.
    Level,
    /// The position of the place on an axis.
    Axis(u8),
    /// A vertex.
    Vertex(VertexName),
    /// The event's cell.
    Cell,
    /// The parent cell.
    Parent,
}

/// What a word speaks of, if it is one of the first words of names.
pub(crate) fn head_of(word: &str, axes: u8) -> Option<Head>
    ensures value { result ≡ table.head_of axes word.now }
    ensures axis { IfSome result (λ head. IsTrue (table.is_within axes head)) }
{
    if word == "t" {
        return Some(Head::Traversal);
    }
    if word == "global" {
        return Some(Head::Global);
    }
    if word == "level" {
        return Some(Head::Level);
    }
    if word == "v" {
        return Some(Head::Vertex(VertexName::Own));
    }
    if word == "cell" {
        return Some(Head::Cell);
    }
    if word == "parent" {
        return Some(Head::Parent);
    }
    numbered_head(word.as_bytes(), axes)
}

/// What a letter with a number behind it speaks of.
fn numbered_head(word: &[u8], axes: u8) -> Option<Head>
    ensures value { result ≡ table.numbered_head axes word.now }
    ensures axis { IfSome result (λ head. IsTrue (table.is_within axes head)) }
{
    match word {
        [letter, digits @ ..] => match number_of(digits) {
            Some(number) => family(*letter, number, axes),
            None => None,
        },
        [] => None,
    }
}

/// What a letter and a number speak of.
fn family(letter: u8, number: u8, axes: u8) -> Option<Head>
    ensures value { result ≡ table.family axes letter number }
    ensures axis { IfSome result (λ head. IsTrue (table.is_within axes head)) }
{
    match letter {
        b'x' if number < axes => Some(Head::Axis(number)),
        b'v' => Some(Head::Vertex(VertexName::Corner(number))),
        b'p' => Some(Head::Vertex(VertexName::ParentCorner(number))),
        _ => None,
    }
}

/// The number of one digit, or of two of which the first is not 0.
fn number_of(digits: &[u8]) -> Option<u8>
    ensures { result ≡ table.number_of digits.now }
{
    match digits {
        [one] if one.is_ascii_digit() => Some(*one - b'0'),
        [ten, one] if *ten != b'0' && ten.is_ascii_digit() && one.is_ascii_digit() => {
            Some((*ten - b'0') * 10 + (*one - b'0'))
        }
        _ => None,
    }
}

impl Head {
    /// Whether an event of this sort sees what the word speaks of.
    pub(crate) fn is_here(self, sort: Sort) -> bool
        ensures { result ≡ table.is_here sort self }
    {
        match self {
            Head::Traversal | Head::Global => true,
            Head::Level | Head::Axis(_) | Head::Parent => sort != Sort::Plain,
            Head::Vertex(VertexName::Own) => sort == Sort::Vertex,
            Head::Vertex(VertexName::Corner(_)) | Head::Cell => sort == Sort::Cell,
            Head::Vertex(VertexName::ParentCorner(_)) => sort != Sort::Plain,
        }
    }

    /// Whether a cell has the corner of which the word speaks.
    pub(crate) fn has_corner(self, corners: u8) -> bool
        ensures { result ≡ table.has_corner corners self }
    {
        match self {
            Head::Vertex(VertexName::Corner(k) | VertexName::ParentCorner(k)) => k < corners,
            _ => true,
        }
    }
}
