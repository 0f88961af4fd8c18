//! Why a shape or a view can't be made.

/// Why a rule of shapes refuses its arguments.
#[derive(Debug, Clone, Copy, PartialEq, Eq)]
pub enum ShapeFault {
    /// Two shapes, of which one does not fit the other.
    ShapeMismatch,
    /// A bound of a slice lies outside its dimension.
    SliceRange,
    /// A slice has step 0.
    ZeroStep,
    /// A length is 0, or a slice leaves no index.
    EmptyArray,
    /// There is no such axis.
    AxisRange,
    /// Too few or too many dimensions, slices or strides.
    RankRange,
    /// The elements are not consecutive and rising.
    NotContiguous,
    /// Two shapes have different numbers of positions.
    CountMismatch,
    /// An element lies outside its base.
    OutsideBase,
    /// A shape has more than 1,048,576 positions.
    TooManyElements,
}
