// What came of a number of feeders: counts that add up, and a line that shows them.
use std::fmt;
use std::ops::AddAssign;

// How many feeders there were, how many the planner and the brute force orient, on how many the two agree, and how many plans are right.
#[derive(Clone, Copy, Default)]
pub struct Tally {
    pub feeders: u32,
    pub oriented: u32,
    pub searched: u32,
    pub agree: u32,
    pub right: u32,
}

impl AddAssign for Tally {
    // Adds what came of other feeders.
    fn add_assign(&mut self, other: Tally) {
        self.feeders = self.feeders.saturating_add(other.feeders);
        self.oriented = self.oriented.saturating_add(other.oriented);
        self.searched = self.searched.saturating_add(other.searched);
        self.agree = self.agree.saturating_add(other.agree);
        self.right = self.right.saturating_add(other.right);
    }
}

impl fmt::Display for Tally {
    // Prints the counts in one line.
    fn fmt<W: fmt::Write>(&self, f: &mut fmt::Formatter<W>) -> fmt::Result {
        let Tally {
            feeders,
            oriented,
            searched,
            agree,
            right,
        } = self;
        write!(
            f,
            "{feeders} feeders, {oriented} oriented, {searched} by brute force, {agree} agree, {right} plans right"
        )
    }
}
