// Sets of poses or of actions as 32-bit numbers: the bit of weight 2 to the p stands for p.
// Sets are numbers and no type: public calls take and answer them so, and each public function here answers every number.
ghost use Rattle.std.specs.Prelude.{◌≡◌, ◌-◌, ◌^◌, ◌<◌, ◌≤◌, nat_lt};
ghost use Rattle.feeders.specs.Sets.{all_below, has};

// Whether `member` belongs to the set; no number from 32 on does.
pub fn has(set: u32, member: u32) -> bool
    ensures { result ≡ has set member }
{
    member < 32 && has_pose(set, member)
}

// Whether a pose belongs to the set, for those below 32, as a feeder's are: a loop over them would pay for the test in `has` at each.
pub(crate) fn has_pose(set: u32, pose: u32) -> bool
    requires { pose < 32 }
    ensures { result ≡ has set pose }
{
    set >> pose & 1 == 1
}

// The set of all numbers below `n`; from 32 on, that of all numbers below 32.
pub fn every(n: u32) -> u32
    ensures few { n ≤ 32 → result ≡ 2 ^ n - 1 }
    ensures many { 32 ≤ n → result ≡ 2 ^ 32 - 1 }
{
    if n < 32 { (1 << n) - 1 } else { u32::MAX }
}

// Whether all members of the set are below `n`.
pub fn is_within(set: u32, n: u32) -> bool
    ensures { result ≡ nat_lt set (2 ^ n) }
{
    set <= every(n)
}

// Whether each entry of the list is below `limit`.
pub fn all_below(list: &[u8], limit: u32) -> bool
    ensures { result ≡ all_below limit list.now }
{
    list.iter().all(|entry| u32::from(*entry) < limit)
}
