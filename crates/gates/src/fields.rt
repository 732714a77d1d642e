// The gates in a gate row's sheet: of each its set, then its turn.
ghost use Rattle.std.specs.Prelude.{◌≤◌};
ghost use Rattle.gates.specs.Fields.{GivesGates, OneGate};

use crate::gate::Gate;
use lists::Bounded;
use numbers::Fields;
use refusals::Fault;

// A gate that turns nothing.
pub(crate) const IDLE: Gate = Gate { set: 0, turn: 0 };

// A gate of a row that has so many poses.
fn read_gate(fields: &mut Fields, poses: u32) -> Result<Gate, Fault>
    requires { poses ≤ 32 }
    ensures { OneGate poses fields.old fields.new result }
{
    let set = fields.below(1 << poses)?;
    let turn = fields.below(u64::from(poses))?;
    Ok(Gate { set, turn })
}

// So many gates of a row.
// A loop of its own: a reader of any items, with a closure for one, would say no more.
pub(crate) fn read_gates(
    fields: &mut Fields,
    poses: u32,
    count: u32,
) -> Result<Bounded<Gate, 32>, Fault>
    requires { (poses ≤ 32) × (count ≤ 32) }
    ensures { GivesGates poses count fields.old fields.new result }
{
    let mut gates = Bounded::new(IDLE);
    for _ in 0..count {
        gates.push(read_gate(fields, poses)?).unwrap();
    }
    Ok(gates)
}
