// The nearest pair of a set of poses.
ghost use Rattle.std.specs.Prelude.{◌≡◌, ◌+◌, ◌-◌, ◌*◌, ◌^◌, ◌<◌, ◌≤◌};
ghost use Rattle.planning.specs.Nearest.{pair_of, row_of, nearest_of, nearer_of};

use feeders::{Feeder, has};
use grounds::{Distances, PairGround};

// Two poses p < q and their distance, in the order of the pair rule: the nearer pair comes first, on a tie the one with the lower p, then the lower q.
#[derive(Clone, Copy, PartialEq, Eq, PartialOrd, Ord)]
pub(crate) struct Pair {
    away: u32,
    pub(crate) p: u32,
    pub(crate) q: u32,
}

// The first pair of the set, of those that have a distance.
pub(crate) fn nearest<F: Feeder>(distances: &Distances<PairGround<F>>, set: u32) -> Option<Pair>
    requires { set < 2 ^ (F.Feeder.motion distances.now.levels.ground.now.feeder.now).poses }
    ensures { result ≡ nearest_of distances.now.levels.table set }
{
    // Loops and no chains of iterators: on 32 poses the chains ran 1.8 times the instructions.
    let mut best = None;
    for p in 0..end_of(set) {
        best = nearer(best, nearest_with(distances, set, p));
    }
    best
}

// The same, of the pairs with the lesser pose `p`.
fn nearest_with<F: Feeder>(distances: &Distances<PairGround<F>>, set: u32, p: u32) -> Option<Pair>
    requires set_bound { set < 2 ^ (F.Feeder.motion distances.now.levels.ground.now.feeder.now).poses }
    requires p_bound { p < 32 }
    ensures { result ≡ row_of distances.now.levels.table set p }
{
    if !has(set, p) {
        return None;
    }
    let mut best = None;
    for q in p + 1..end_of(set) {
        best = nearer(best, pair_at(distances, set, p, q));
    }
    best
}

// The first of the best pair so far and the next one.
fn nearer(best: Option<Pair>, next: Option<Pair>) -> Option<Pair>
    ensures { result ≡ nearer_of best next }
{
    match (best, next) {
        (Some(pair), Some(after)) => Some(pair.min(after)),
        (None, _) => next,
        (_, None) => best,
    }
}

// The least number above all members of the set: only pairs below it are looked at.
fn end_of(set: u32) -> u32
    ensures above { set < 2 ^ result }
    ensures few { result ≤ 32 }
    ensures least { 2 ^ result ≤ 2 * set + 1 }
{
    u32::BITS - set.leading_zeros()
}

// The pair p < q, if it is one of the set and has a distance.
fn pair_at<F: Feeder>(
    distances: &Distances<PairGround<F>>,
    set: u32,
    p: u32,
    q: u32,
) -> Option<Pair>
    requires set_bound { set < 2 ^ (F.Feeder.motion distances.now.levels.ground.now.feeder.now).poses }
    requires p_lt_q { p < q }
    ensures { result ≡ pair_of distances.now.levels.table set p q }
{
    if !has(set, p) || !has(set, q) {
        return None;
    }
    let node = distances.ground().pair_node(p, q).unwrap();
    let away = distances.distance(node).unwrap()?;
    Some(Pair { away, p, q })
}
