// The trait that every feeder shows: a squeezing jaw, a tray, a gate row, a layer, a customer's own.
ghost use Rattle.std.specs.Prelude.{◌≡◌};
ghost use Rattle.feeders.specs.Motion.{Motion, Valid, follows};

use refusals::Refusal;

// A feeder's meaning is its motion; its three questions change nothing and answer by the motion alone.
pub trait Feeder {
    ghost motion: { Self → Motion };

    ghost valid: { (f : Self) → Valid (motion f) };

    // How many poses a part may have.
    fn poses(&self) -> u32
        ensures { result ≡ (motion self.now).poses };

    // How many actions the feeder has.
    fn actions(&self) -> u32
        ensures { result ≡ (motion self.now).actions };

    // Which pose follows `pose` under `action`; refuses an absent pose, then an absent action.
    fn follow(&self, pose: u32, action: u32) -> Result<u32, Refusal>
        ensures { result ≡ follows (motion self.now) pose action };
}
