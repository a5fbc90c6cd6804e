//! What a walk is chosen from: the steps that are allowed, and what each costs.
ghost use Rattle.std.specs.Prelude.{◌≡◌, ℕ, ◌+◌, ◌^◌, ◌<◌, ◌≤◌, ◌↔◌, IsTrue};
ghost use Rattle.least_walk.specs.LeastWalk.{IsFewestStep};

/// The steps that a walk from 0 to `size` may take, and what each costs.
///
/// Steps lead onwards only, and each index has an allowed step to the next one: so there is always
/// a walk.
pub trait Steps {
    /// The index at which a walk ends.
    ghost size_of: { Self → ℕ };

    /// The index beyond which no step leads from this one.
    ghost last_of: { Self → ℕ → ℕ };

    /// The step from the first index to the second is allowed.
    ghost is_allowed: { Self → ℕ → ℕ → Type 0 };

    /// What the step from the first index to the second costs.
    ghost cost_of: { Self → ℕ → ℕ → ℕ };

    /// The index at which a walk ends; it begins at 0.
    fn size(&self) -> u32
        ensures { result ≡ size_of self.now };

    /// An index beyond which no step leads from this one.
    ///
    /// Each index up to it is looked at, so the nearer it is, the faster the search.
    fn last(&self, from: u32) -> u32
        requires { from < size_of self.now }
        ensures { result ≡ last_of self.now from };

    /// Whether the step between the two indices is allowed.
    fn allowed(&self, from: u32, to: u32) -> bool
        requires onwards { from < to }
        requires within { to ≤ size_of self.now }
        ensures { IsTrue result ↔ is_allowed self.now from to };

    /// What a step costs that some walk of fewest steps takes.
    fn cost(&self, from: u32, to: u32) -> u64
        requires allowed { is_allowed self.now from to }
        requires fewest { IsFewestStep (size_of self.now) (is_allowed self.now) from to }
        ensures { result ≡ cost_of self.now from to };

    /// A walk has at least one step.
    ghost least_size: { (steps : Self) → 1 ≤ size_of steps };

    /// An index fits 32 bits, and so does the number after it.
    ghost greatest_size: { (steps : Self) → size_of steps ≤ 2 ^ 31 };

    /// From each index before the end a step may lead onwards.
    ghost last_is_beyond: { (steps : Self) (i : ℕ) → i < size_of steps → i < last_of steps i };

    /// No step leads beyond the end.
    ghost last_is_within: { (steps : Self) (i : ℕ)
        → i < size_of steps → last_of steps i ≤ size_of steps };

    /// The step to the next index is allowed.
    ghost next_is_allowed: { (steps : Self) (i : ℕ)
        → i < size_of steps → is_allowed steps i (i + 1) };

    /// An allowed step leads onwards.
    ghost allowed_goes_up: { (steps : Self) (i j : ℕ)
        → i < size_of steps → is_allowed steps i j → i < j };

    /// An allowed step leads no farther than to the last index.
    ghost allowed_ends_at_last: { (steps : Self) (i j : ℕ)
        → i < size_of steps → is_allowed steps i j → j ≤ last_of steps i };

    /// So the steps of a walk together cost less than 2^87.
    ghost greatest_cost: { (steps : Self) (i j : ℕ)
        → i < size_of steps → is_allowed steps i j → cost_of steps i j < 2 ^ 56 };
}
