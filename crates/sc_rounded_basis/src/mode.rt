//! What the search is for.

/// What kind of polygons the search prefers.
#[derive(Clone, Copy, Debug, PartialEq, Eq)]
pub enum Mode {
    /// All polygons alike.
    Plain,
    /// Those whose steps stay near: a polygon is worth a vertex, less so many thousandths for each position that a step
    /// goes away from the next position round its word.
    Near { thousandths: u32 },
    /// No search for a basis: the polygons of a good surface alone.
    Surface,
}
