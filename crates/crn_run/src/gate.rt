//! Gates, which may hold a policy's run.
ghost use Rattle.std.specs.Prelude.{◌≡◌, ℕ, Bool, true, false, ◌||◌, not, IfSome, IfNone};

/// What a policy's run asks before it applies a block. A gate that answers false holds the run before that block.
///
/// Contracts read from a gate's value whether it has answered false. They also relate the values before and after each
/// call, so a run's contract says which calls it has made, and in which order.
pub trait Gate {
    /// Whether it has answered false.
    ghost refused: { Self → Bool };

    /// What a call for a policy's block with an answer makes of the value. A gate that states nothing here takes the
    /// relation that always holds.
    ghost asked: { Self → ℕ → ℕ → Bool → Self → Type 0 };

    /// Returns whether block number `block` of the stream may be applied to the state of policy number `policy`. Policies
    /// are numbered from 0 in the scenario's order.
    ///
    /// It may wait, on the thread of that policy. The other policies continue until they need a block that is not
    /// published yet. Afterwards the value says that it has answered false if it said so before or if this answer is
    /// false, and not otherwise.
    fn pass(&mut self, policy: u32, block: u64) -> bool
        ensures told { refused self.new ≡ (refused self.old || not result) }
        ensures asked { asked self.old policy block result self.new };
}

/// The gate that always passes. Allocates nothing.
#[derive(Clone, Copy, Debug, Default, PartialEq, Eq)]
pub struct OpenGate;

impl Gate for OpenGate {
    ghost refused = { λ _. false };

    ghost asked = { λ _ _ _ answer _. answer ≡ true };

    #[inline(always)]
    fn pass(&mut self, _policy: u32, _block: u64) -> bool {
        true
    }
}

/// A gate's leave to apply one policy's next block. Only `ask` makes it.
#[derive(Drop)]
pub(crate) struct Permit {
    policy: u32,
    block: u64,
}

/// Asks a gate for a policy's block. The gate has not answered false before.
#[inline(always)]
pub(crate) fn ask<G: Gate>(gate: &mut G, policy: u32, block: u64) -> Option<Permit>
    requires gate { G.refused gate.old ≡ false }
    ensures permit { IfSome result (λ p. (p.policy ≡ policy) × (p.block ≡ block)) }
    ensures passed { IfSome result (λ _. (G.refused gate.new ≡ false) × G.asked gate.old policy block true gate.new) }
    ensures held { IfNone result ((G.refused gate.new ≡ true) × G.asked gate.old policy block false gate.new) }
{
    if gate.pass(policy, block) {
        Some(Permit { policy, block })
    } else {
        None
    }
}
