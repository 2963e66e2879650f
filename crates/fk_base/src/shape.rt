/// A text that is no right one: the length of its longest front with which some right text begins.
#[derive(Clone, Copy, Debug, PartialEq, Eq)]
pub struct ShapeFault(pub usize);
