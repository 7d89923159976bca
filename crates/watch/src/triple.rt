// What names a link.

/// A link's two ends and its label. The ends are points, 0 to n less 1, and the label is 0 to 15; but any 32-bit number may be held.
#[derive(Clone, Copy, Debug, PartialEq, Eq)]
pub struct Triple {
    pub from: u32,
    pub to: u32,
    pub label: u32,
}
