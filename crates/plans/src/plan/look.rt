// What a plan tells of the list that it holds.
ghost use Rattle.std.specs.Prelude.{◌≡◌, ◌≤◌, T, ◌↔◌, [], length};
ghost use Rattle.plans.specs.Held.{list_of};

use crate::plan::Plan;
use lists::Bounded;

impl Plan {
    // No actions.
    // No Default beside it: it would be a second name for this, and nothing asks for it.
    pub fn new() -> Plan
        ensures { list_of result ≡ [] }
    {
        Plan {
            actions: Bounded::new(0),
        }
    }

    // How many actions the plan has.
    pub fn len(&self) -> usize
        ensures counts { result ≡ length (list_of self.now) }
        ensures most { result ≤ 16384 }
    {
        self.actions.len()
    }

    // Whether the plan has no actions.
    pub fn is_empty(&self) -> bool
        ensures { T result ↔ (list_of self.now ≡ []) }
    {
        self.actions.is_empty()
    }

    // The actions, in order.
    pub fn as_slice(&self) -> &[u8]
        ensures { result.now ≡ list_of self.now }
    {
        self.actions.as_slice()
    }

    // Whether the plan is that list.
    pub fn same_as(&self, list: &[u8]) -> bool
        ensures { T result ↔ (list_of self.now ≡ list.now) }
    {
        self.as_slice() == list
    }
}
