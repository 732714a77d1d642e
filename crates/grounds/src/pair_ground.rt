// The ground of two parts: the pairs of a feeder's poses, and one node for two that have met, which is the goal.
ghost use Rattle.std.specs.Prelude.{◌≡◌, ◌<◌, ◌&&◌, if◌then◌else◌, Ok, Err, nat_lt};
ghost use Rattle.refusals.specs.declared.Refusal.TheVariants.{NoPose};
ghost use Rattle.graphs.specs.Pairs.{node_of, pair_graph};
ghost use Rattle.grounds.specs.Sound.{pair_sound};

use crate::ground::Ground;
use crate::starts::{node_of, pairs_of, start_of, upper_of};
use feeders::Feeder;
use refusals::Refusal;

#[derive(Drop)]
pub struct PairGround<'a, F: Feeder> {
    feeder: &'a F,
}

impl<'a, F: Feeder> PairGround<'a, F> {
    // The ground of the pairs of the feeder's poses.
    pub fn new(feeder: &'a F) -> PairGround<'a, F>
        ensures { result.feeder.now ≡ feeder.now }
    {
        PairGround { feeder }
    }

    // The node of two poses, in any order; refuses an absent one.
    // Two numbers and no pair type: callers have them as two poses, in any order.
    pub fn pair_node(&self, p: u32, q: u32) -> Result<u32, Refusal>
        ensures { result ≡ (if nat_lt p (F.Feeder.motion self.now.feeder.now).poses && nat_lt q (F.Feeder.motion self.now.feeder.now).poses then Ok (node_of (F.Feeder.motion self.now.feeder.now).poses p q) else Err NoPose) }
    {
        let n = self.feeder.poses();
        if p >= n || q >= n {
            return Err(Refusal::NoPose);
        }
        Ok(node_of(n, p, q))
    }
}

impl<'a, F: Feeder> Ground for PairGround<'a, F> {
    ghost graph = { λ g. pair_graph (F.Feeder.motion g.feeder.now) };

    ghost sound = { λ g. pair_sound (F.Feeder.motion g.feeder.now) (F.Feeder.valid g.feeder.now) };

    fn nodes(&self) -> u32 {
        pairs_of(self.feeder.poses()) + 1
    }

    fn labels(&self) -> u32 {
        self.feeder.actions()
    }

    fn next(&self, node: u32, label: u32) -> Result<u32, Refusal> {
        let n = self.feeder.poses();
        let met = pairs_of(n);
        // Tested by hand: a question in two lines, which a shared function would only name again.
        if node > met {
            return Err(Refusal::NoPose);
        }
        if label >= self.feeder.actions() {
            return Err(Refusal::NoAction);
        }
        if node == met {
            return Ok(met);
        }
        let q = upper_of(n, node);
        let p = node - start_of(q);
        Ok(node_of(
            n,
            self.feeder.follow(p, label).unwrap(),
            self.feeder.follow(q, label).unwrap(),
        ))
    }

    fn is_goal(&self, node: u32) -> Result<bool, Refusal> {
        let met = pairs_of(self.feeder.poses());
        if node > met {
            return Err(Refusal::NoPose);
        }
        Ok(node == met)
    }
}
