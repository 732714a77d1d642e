// The numbering of the pairs of poses p < q: the pair has the number start(q) + p.
ghost use Rattle.std.specs.Prelude.{◌≡◌, ◌+◌, ◌<◌, ◌≤◌};
ghost use Rattle.graphs.specs.Pairs.{start, upper, node_of};

// Where the pairs with the greater pose q begin, for each q: q (q - 1) / 2.
const STARTS: [u16; 32] = [
    0, 0, 1, 3, 6, 10, 15, 21, 28, 36, 45, 55, 66, 78, 91, 105, 120, 136, 153, 171, 190, 210, 231,
    253, 276, 300, 325, 351, 378, 406, 435, 465,
];

// The first number of the pairs with the greater pose `q`.
pub(crate) fn start_of(q: u32) -> u32
    requires { q < 32 }
    ensures is { result ≡ start q }
    ensures few { result ≤ 465 }
{
    u32::from(STARTS[q as usize])
}

// How many pairs `n` poses have.
pub(crate) fn pairs_of(n: u32) -> u32
    requires { (1 ≤ n) × (n ≤ 32) }
    ensures is { result ≡ start n }
    ensures few { result ≤ 496 }
{
    start_of(n - 1) + (n - 1)
}

// The greater pose of the pair with the number `node`.
pub(crate) fn upper_of(n: u32, node: u32) -> u32
    requires { (n ≤ 32) × (node < start n) }
    ensures is { result ≡ upper n node }
    ensures below { result < n }
    ensures begun { start result ≤ node }
    ensures lower { node < start result + result }
{
    // From the highest, pose by pose: with `partition_point`, a binary search, plans from 16 poses took up to half as long again.
    (0..n).rev().find(|q| start_of(*q) <= node).unwrap()
}

// The number of two poses of `n`, in any order; that of two that are the same comes after those of all pairs.
pub(crate) fn node_of(n: u32, p: u32, q: u32) -> u32
    requires { (n ≤ 32) × ((p < n) × (q < n)) }
    ensures { result ≡ node_of n p q }
{
    if p == q {
        pairs_of(n)
    } else if p < q {
        start_of(q) + p
    } else {
        start_of(p) + q
    }
}
