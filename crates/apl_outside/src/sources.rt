//! Sources: where bytes come from.

ghost use Rattle.std.specs.Prelude.{◌≡◌, ℕ, ◌<◌, ◌≤◌, ◌↔◌, List, [], Option, length, take, IfOk, IfSome, OnErr};
ghost use Rattle.apl_outside.specs.Bytes.{Loses};
ghost use Rattle.apl_outside.specs.Faults.{Rose};

/// A source or a sink failed, and has counted the fault.
#[derive(Clone, Copy, Debug, PartialEq, Eq)]
pub struct Failed;

/// Where bytes come from.
pub trait Source {
    // The bytes still to come, where the source tells them.
    ghost left: { Self → Option (List ℕ) };

    // How often it has failed: a count that never falls.
    ghost faults: { Self → ℕ };

    /// Takes bytes from the source into the front of `buf`, and says how many; 0 is the end of the input.
    fn pull(&mut self, buf: &mut [u8]) -> Result<usize, Failed>
        requires { 0 < length buf.old }
        ensures bound { IfOk result (λ n. n ≤ length buf.new) }
        ensures taken { IfOk result (λ n. Loses (left self.old) (left self.new) (take n buf.new)) }
        ensures end { IfOk result (λ n. IfSome (left self.old) (λ bytes. (n ≡ 0) ↔ (bytes ≡ []))) }

        ensures failed { OnErr result (Rose (faults self.old) (faults self.new)) }
        ensures unchanged { OnErr result (left self.new ≡ left self.old) }
        ensures never_falls { faults self.old ≤ faults self.new };
}
