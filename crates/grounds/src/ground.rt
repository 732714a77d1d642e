// The trait that every ground shows.
ghost use Rattle.std.specs.Prelude.{◌≡◌};
ghost use Rattle.graphs.specs.Graph.{Graph, Sound, is_goal, leads_to};

use refusals::Refusal;

// A ground's meaning is its graph; its questions change nothing and answer by the graph alone.
pub trait Ground {
    ghost graph: { Self → Graph };

    ghost sound: { (g : Self) → Sound (graph g) };

    // How many nodes there are.
    fn nodes(&self) -> u32
        ensures { result ≡ (graph self.now).nodes };

    // How many labels there are.
    fn labels(&self) -> u32
        ensures { result ≡ (graph self.now).labels };

    // Which node follows `node` under `label`; refuses an absent node, then an absent label.
    fn next(&self, node: u32, label: u32) -> Result<u32, Refusal>
        ensures { result ≡ leads_to (graph self.now) node label };

    // Whether the node is a goal; refuses an absent node.
    fn is_goal(&self, node: u32) -> Result<bool, Refusal>
        ensures { result ≡ is_goal (graph self.now) node };
}
