//! The target of a way.

/// The node that should hold the packages of the path's unit, and the host that should build them.
/// The path is a text, which may not be a package path.
#[derive(Clone, Copy, Debug)]
pub struct Target<'a> {
    pub node: u8,
    pub path: &'a str,
    pub host: u16,
}
