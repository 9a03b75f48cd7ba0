//! What the lanes of a row show.

/// What a lane shows in a row.
#[derive(Clone, Copy)]
pub enum Shape {
    /// Spaces, or the underline that runs right from another lane's corner.
    Space,
    /// A vertical bar: the label continues.
    Bar,
    /// A top corner: the label begins.
    TopCorner,
    /// A bottom corner: the label ends.
    BottomCorner,
}
