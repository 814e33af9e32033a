// The element of the phase map.

// A soliton of a kind, at a phase.
#[derive(Clone, Copy, PartialEq, Eq, Debug)]
pub struct Soliton {
    pub kind: u8,
    pub phase: u16,
}
