//! What is explored.

use std::alloc::{AllocError, Global};

/// What an event came to.
#[derive(Drop)]
pub enum Advanced<V, R> {
    /// The state doesn't accept it.
    Refused,
    /// It was accepted, and nothing is wrong with it.
    Passed,
    /// It was accepted, and this is wrong with it.
    Judged(V),
    /// The exploration ends for this reason.
    Stopped(R),
}

/// A system with states that are known again by their views.
pub trait System {
    ghost use Rattle.std.specs.Prelude.{◌≡◌, ℕ, ◌<◌, ◌++◌, List, Bool, true, Option, Some, None, OnOk, IfOk};
    ghost use Rattle.m161_explore.specs.Rules.{Rules, Advances};

    /// A state in hand. It may keep more than the rules see, so that events, views and other states cost
    /// less.
    type State: Drop;

    /// What may be wrong with an event.
    type Verdict: Drop;

    /// Why an exploration may end before its answer.
    type Reason: Drop;

    // What the rules see of a state.
    ghost Seen: { Type 0 };

    ghost seen: { Self.State → Seen };

    // The events, the first state, and what follows.
    ghost rules: { Self → Rules Seen Self.Verdict Self.Reason };

    // What holds of each state that is met.
    ghost is_valid: { Self → Seen → Type 0 };

    // What holds of what a state in hand keeps.
    ghost is_ready: { Self → Self.State → Type 0 };

    /// How many events there are.
    fn width(&self) -> u32
        ensures { result ≡ (rules self.now).width };

    /// The first state.
    ///
    /// # Errors
    /// Memory is refused.
    fn start(&self, alloc: Global) -> Result<Self::State, AllocError>
        ensures start { IfOk result (λ s. seen s ≡ (rules self.now).start) }
        ensures ready { IfOk result (is_ready self.now) };

    /// Whether it is known, with no event made, that a state refuses an event. Such an event costs no state
    /// then. What isn't known is found by making the event.
    fn refuses(&self, state: &Self::State, event: u32) -> bool
        requires ready { is_ready self.now state.now }
        requires valid { is_valid self.now (seen state.now) }
        requires event { event < (rules self.now).width }
        ensures { result ≡ true → ((rules self.now).stop (seen state.now) event ≡ None)
            × ((rules self.now).next (seen state.now) event ≡ None) };

    /// Makes an event, and says what it came to.
    ///
    /// # Errors
    /// Memory is refused.
    fn advance(
        &self,
        state: &mut Self::State,
        event: u32,
    ) -> Result<Advanced<Self::Verdict, Self::Reason>, AllocError>
        requires ready { is_ready self.now state.old }
        requires valid { is_valid self.now (seen state.old) }
        requires event { event < (rules self.now).width }
        ensures advances { IfOk result
            (Advances (rules self.now) (is_valid self.now) (seen state.old) event (seen state.new)) }
        ensures ready { OnOk result (is_ready self.now state.new) };

    /// Writes a state's view behind the words that are there. The rules see the same state then.
    ///
    /// # Errors
    /// Memory is refused.
    fn encode(&self, state: &mut Self::State, words: &mut Vec<u32>) -> Result<(), AllocError>
        requires ready { is_ready self.now state.old }
        requires valid { is_valid self.now (seen state.old) }
        ensures words { OnOk result
            (words.new.items ≡ words.old.items ++ (rules self.now).view (seen state.old)) }
        ensures same { OnOk result (seen state.new ≡ seen state.old) }
        ensures ready { OnOk result (is_ready self.now state.new) };

    /// Makes the state one with this view.
    ///
    /// # Errors
    /// Memory is refused.
    fn restore(&self, state: &mut Self::State, words: &[u32]) -> Result<(), AllocError>
        requires ready { is_ready self.now state.old }
        requires view { (s : Seen) × is_valid self.now s × ((rules self.now).view s ≡ words.now) }
        ensures view { OnOk result
            (is_valid self.now (seen state.new) × ((rules self.now).view (seen state.new) ≡ words.now)) }
        ensures ready { OnOk result (is_ready self.now state.new) };

    /// Whether a state is an end.
    fn is_end(&self, state: &Self::State) -> bool
        requires { is_valid self.now (seen state.now) }
        ensures { result ≡ (rules self.now).is_end (seen state.now) };

    ghost valid_start: { (m : Self) → is_valid m (rules m).start };

    ghost valid_next: { (m : Self) (s t : Seen) (e : ℕ) →
        is_valid m s → (rules m).next s e ≡ Some t → is_valid m t };

    ghost alike_stop: { (m : Self) (s t : Seen) (e : ℕ) →
        is_valid m s → is_valid m t → (rules m).view s ≡ (rules m).view t →
        (rules m).stop s e ≡ (rules m).stop t e };

    ghost alike_next: { (m : Self) (s t u : Seen) (e : ℕ) →
        is_valid m s → is_valid m t → (rules m).view s ≡ (rules m).view t → (rules m).stop s e ≡ None →
        (rules m).next s e ≡ Some u →
        (v : Seen) × ((rules m).next t e ≡ Some v) × ((rules m).view u ≡ (rules m).view v) };

    ghost alike_verdict: { (m : Self) (s t : Seen) (e : ℕ) →
        is_valid m s → is_valid m t → (rules m).view s ≡ (rules m).view t → (rules m).stop s e ≡ None →
        (rules m).verdict s e ≡ (rules m).verdict t e };

    ghost alike_end: { (m : Self) (s t : Seen) →
        is_valid m s → is_valid m t → (rules m).view s ≡ (rules m).view t →
        (rules m).is_end s ≡ (rules m).is_end t };
}
