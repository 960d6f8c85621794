/// The rules of the expansion of a root.
#[derive(Clone, Copy, PartialEq, Eq, Debug)]
pub enum ElabRule {
    /// A control that has no meaning, or one outside of what it applies to.
    E1,
    /// A range or a comparison that holds nothing.
    E2,
    /// An occurrence that allows no number, or only 0.
    E3,
    /// The root is the name of no rule.
    E4,
    /// The root is generic or a group.
    E5,
    /// An entry of a map that is neither a pair nor a group that a map may have.
    E6,
    /// More than 4,096 steps.
    L1,
    /// More than 96 steps inside each other.
    L2,
    /// More than 256 keyed entries in one pair of braces.
    L3,
    /// More than 65,536 bytes in literals and words.
    L4,
    /// A float.
    U1,
    /// A control that is not taken.
    U2,
    /// A number out of range.
    U3,
    /// A major type, or a simple value, that is not taken.
    U4,
}
