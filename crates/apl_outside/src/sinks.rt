//! Sinks: where bytes go.

ghost use Rattle.std.specs.Prelude.{◌≡◌, ℕ, ◌<◌, ◌≤◌, List, Option, length, take, IfOk, OnErr};
ghost use Rattle.apl_outside.specs.Bytes.{Gains};
ghost use Rattle.apl_outside.specs.Faults.{Rose};

use crate::sources::Failed;

/// Where bytes go.
pub trait Sink {
    // The bytes that it was given, where the sink tells them.
    ghost written: { Self → Option (List ℕ) };

    // How often it has failed: a count that never falls.
    ghost faults: { Self → ℕ };

    /// Gives the sink bytes from the front of `piece`, and says how many it took, at least one.
    fn push(&mut self, piece: &[u8]) -> Result<usize, Failed>
        requires { 0 < length piece.now }
        ensures some { IfOk result (λ n. 0 < n) }
        ensures bound { IfOk result (λ n. n ≤ length piece.now) }
        ensures added { IfOk result
            (λ n. Gains (written self.old) (written self.new) (take n piece.now)) }

        ensures failed { OnErr result (Rose (faults self.old) (faults self.new)) }
        ensures unchanged { OnErr result (written self.new ≡ written self.old) }
        ensures never_falls { faults self.old ≤ faults self.new };
}
