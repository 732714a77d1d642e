// One gate: the poses that it turns, and by how much.
#[derive(Clone, Copy, PartialEq, Eq, Debug)]
pub struct Gate {
    pub set: u32,
    pub turn: u32,
}
