// Sets of poses and of actions as numbers.
ghost use Rattle.std.specs.Prelude.{◌≡◌, ◌<◌};
ghost use Rattle.feeders.specs.Sets.{with};
ghost use Rattle.jobs.specs.Sets.{OnlyPose, less};

// The set with the number in it.
pub(crate) fn with_number(set: u32, number: u32) -> u32
    requires { number < 32 }
    ensures { result ≡ with set number }
{
    set | 1 << number
}

// The set without the number.
pub(crate) fn without_number(set: u32, number: u32) -> u32
    requires { number < 32 }
    ensures { result ≡ less set number }
{
    set & !(1 << number)
}

// The pose of a set that has one; none where it has another number of poses.
pub(crate) fn only_pose(set: u32) -> Option<u32>
    ensures { OnlyPose set result }
{
    set.is_power_of_two().then_some(set.trailing_zeros())
}
