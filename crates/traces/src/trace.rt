// The trace of a list of actions.
ghost use Rattle.std.specs.Prelude.{◌≡◌, ◌+◌, ◌*◌, ◌^◌, ◌<◌, ◌≤◌, T, [], ◌∷◌, ◌++◌, length, drop};
ghost use Rattle.feeders.specs.Image.{image as image_of};
ghost use Rattle.feeders.specs.Sets.{all_below};
ghost use Rattle.refusals.specs.Outcomes.{Leaves};
ghost use Rattle.traces.specs.Trace.{TraceLaws, trace_of, traced};

use crate::row::write_row;
use feeders::{Feeder, image};
use refusals::Refusal;

// Writes the rows of the trace to the front of the buffer; the bytes after them stay.
// Refuses a set with an absent pose, a list with an absent action, and a buffer with too little room; then the buffer stays.
pub fn write_trace<F: Feeder>(
    feeder: &F,
    set: u32,
    list: &[u8],
    buffer: &mut [u8],
) -> Result<(), Refusal>
    ensures written { Leaves (λ bytes. bytes) (traced (F.Feeder.motion feeder.now) set list.now buffer.old) buffer.old buffer.new result }
    ensures laws { TraceLaws (F.Feeder.motion feeder.now) set list.now }
{
    image(feeder, set, list)?;
    // Divided, since twelve times a length could overflow.
    if buffer.len() / 12 <= list.len() {
        return Err(Refusal::BufferTooShort);
    }
    write_rows(feeder, set, list, buffer);
    Ok(())
}

// Writes the rows, for poses and actions that the feeder has and a buffer with room.
fn write_rows<F: Feeder>(feeder: &F, set: u32, list: &[u8], buffer: &mut [u8])
    requires set_bound { set < 2 ^ (F.Feeder.motion feeder.now).poses }
    requires list_bound { T (all_below (F.Feeder.motion feeder.now).actions list.now) }
    requires room { 12 * (length list.now + 1) ≤ length buffer.old }
    ensures { buffer.new ≡ trace_of (F.Feeder.motion feeder.now) set list.now ++ drop (12 * (length list.now + 1)) buffer.old }
{
    write_row(&mut buffer[..12], None, set);
    let mut here = set;
    for (i, action) in list.iter().enumerate() {
        here = stepped(feeder, here, *action);
        // The place by hand: of parts that `chunks_exact_mut` lends, nothing is known after the loop.
        let start = 12 * (i + 1);
        write_row(&mut buffer[start..start + 12], Some(*action), here);
    }
}

// Where one action brings the set, for poses and an action that the feeder has.
fn stepped<F: Feeder>(feeder: &F, set: u32, action: u8) -> u32
    requires set_bound { set < 2 ^ (F.Feeder.motion feeder.now).poses }
    requires action_bound { action < (F.Feeder.motion feeder.now).actions }
    ensures { result ≡ image_of (F.Feeder.motion feeder.now) set (action ∷ []) }
{
    image(feeder, set, &[action]).unwrap()
}
