/// Where a cell takes a vertex from, or where it puts it.
#[derive(Clone, Copy, Debug, PartialEq, Eq)]
pub enum Route {
    /// The stream: the cell is the first of the vertex's cells on the way in, the last one on the way out.
    Stream,
    /// The temporary stack of this number: `2 i + b` where the vertex crosses axis i at a coordinate of parity b.
    Temp(u8),
}
