// One step of a squeeze table: the angle at which it begins, and the angle at which the part rests.
#[derive(Clone, Copy, PartialEq, Eq, Debug)]
pub struct Step {
    pub begin: u32,
    pub rest: u32,
}
