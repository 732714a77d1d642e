// The entries of a table of distances.
ghost use Rattle.std.specs.Prelude.{◌≡◌, ◌<◌, ◌==◌, Some, None};
ghost use Rattle.graphs.specs.Certificate.{none, told};
ghost use Rattle.grounds.specs.Reach.{entry_of};

// How many nodes a ground has at most.
pub(crate) const NODES: usize = 4096;

// The entry of a node without a distance: memory is fixed, and an `Option` in each place would double it.
pub(crate) const NONE: u16 = u16::MAX;

// The distance that the table has for the node, if there is one.
pub(crate) fn entry(table: &[u16; NODES], node: u32) -> Option<u32>
    ensures is { result ≡ entry_of table.now node }
    ensures few { elim result [ Some d ↦ d < none | None ↦ Unit {0} ] }
{
    let entry = *table.get(node as usize)?;
    (entry != NONE).then_some(u32::from(entry))
}

// Whether the table has this distance for the node: one test for the two that `entry` and its answer would take.
pub(crate) fn tells(table: &[u16; NODES], node: u32, away: u32) -> bool
    requires { away < none }
    ensures { result ≡ (told table.now node == away) }
{
    table
        .get(node as usize)
        .is_some_and(|entry| u32::from(*entry) == away)
}
