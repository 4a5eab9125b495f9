//! Which lines nodes stand on.

/// Columns run up and rows run right: the places of a column have one x, and those of a row one y.
#[derive(Clone, Copy, Debug, PartialEq, Eq)]
pub enum Axis {
    Column,
    Row,
}
