use thiserror::Error;

/// A rule of shapes, which prints as its name. The rules stand in their order.
#[derive(Clone, Copy, Debug, PartialEq, Eq, Error)]
pub enum Rule {
    /// Two alternatives of a choice are not apart.
    #[error("A1")]
    A1,
    /// The starts of two ways of a choice of groups are not apart, or both ways may be empty, or one may be and the starts of the other are not apart from what
    /// follows.
    #[error("A2")]
    A2,
    /// The body of an optional or repeated part may be empty.
    #[error("A3")]
    A3,
    /// The body of an optional part, or of one that is repeated a number of times that is not fixed, has a start that is not apart from what follows.
    #[error("A4")]
    A4,
    /// Two fields of a map have one key, and do not stand in different ways of one pick with values that are apart, or equal but for their places.
    #[error("M1")]
    M1,
    /// Two tables of a map have keys that are not apart.
    #[error("M2")]
    M2,
    /// A field, in a pick too, stands after a table whose keys are not apart from its key.
    #[error("M3")]
    M3,
    /// A way of a pick has no field whose lower bound is 1.
    #[error("M4")]
    M4,
    /// A way holds a table or a pick, or a field's lower bound is above 1.
    #[error("M5")]
    M5,
}
