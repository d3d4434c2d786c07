// The open phases of an hour, as types.
ghost use Rattle.std.specs.Prelude.{◌≡◌, ◌==◌, ℕ, ◌<◌, Bool, true, false, refl};
ghost use Rattle.std.proofs.Common.{lit≤};

// A phase that takes calls. It is Send and Sync, so that an hour with any phase open is.
pub trait OpenPhase: Send + Sync {
    // the number of closings before it opens
    ghost closings: { ℕ };

    // Bids and offers exist day-ahead only.
    const TAKES_BIDS: bool;

    ghost TAKES_BIDS: { Bool };

    // the second closing ends the hour
    ghost two_phases: { closings < 2 };

    ghost bids: { TAKES_BIDS ≡ (closings == 0) };
}

// Before any closing.
pub struct DayAheadPhase;

// After the first closing.
pub struct RealTimePhase;

// An impl for each phase: they differ in all that they say.
impl OpenPhase for DayAheadPhase {
    ghost closings = { 0 };

    const TAKES_BIDS: bool = true;

    ghost TAKES_BIDS = { true };

    ghost two_phases = { lit≤ tt };

    ghost bids = { refl };
}

impl OpenPhase for RealTimePhase {
    ghost closings = { 1 };

    const TAKES_BIDS: bool = false;

    ghost TAKES_BIDS = { false };

    ghost two_phases = { lit≤ tt };

    ghost bids = { refl };
}
