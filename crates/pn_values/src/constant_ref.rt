/// A constant of an enumeration or an element of a partition: the place of its declaration, and
/// its own place there.
#[derive(Clone, Copy, Debug, PartialEq, Eq)]
pub struct ConstantRef {
    pub declaration: u32,
    pub index: u32,
}
