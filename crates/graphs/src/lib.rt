// The mathematics of grounds: distances, ways, poses, pairs of poses and the pair rule. Its functions only name what is proved.
#![tactic(auto)]

ghost use Rattle.std.specs.Prelude.{ℕ};
ghost use Rattle.feeders.specs.Motion.{Motion, Valid};
ghost use Rattle.graphs.specs.Laws.{DistanceLaws};
ghost use Rattle.graphs.specs.PairRule.{PairLaws};
ghost use Rattle.graphs.specs.PoseLaws.{PoseLaws};

// What is proved of distances and ways.
pub fn distances_stand()
    ensures { DistanceLaws }
{}

// What is proved of the pair rule.
pub fn pair_rule_stands()
    ensures { (m : Motion) (perm : ℕ) → Valid m → PairLaws m perm }
{}

// What is proved of the ways from pose to pose.
pub fn pose_ground_stands()
    ensures { (m : Motion) (perm : ℕ) → Valid m → PoseLaws m perm }
{}
