//! The forms in which grids are painted.

/// How a painter writes.
#[derive(Clone, Copy, Debug, PartialEq, Eq)]
pub enum Form {
    /// Lines of words.
    Plain,
    /// Tables in LaTeX.
    Tex,
    /// Matrices as lists of lists, as in GAP.
    Gap,
}
