/// What a name is (RFC 8610, sections 2 and 3).
#[derive(Clone, Copy, Debug, PartialEq, Eq)]
pub struct NameInfo {
    /// Whether it is a group, and else a type.
    pub group: bool,
    /// The number of its generic parameters.
    pub params: u32,
    /// The number of its bodies.
    pub bodies: u32,
}
