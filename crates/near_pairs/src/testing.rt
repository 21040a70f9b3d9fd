// What is looked for among pairs.
ghost use Rattle.std.specs.Prelude.{◌↔◌, ℕ, IsTrue};

/// A test of pairs of numbers.
pub trait PairTest {
    /// Whether the pair of these numbers may be tested.
    ghost can_test: { Self → ℕ → ℕ → Type 0 };

    /// Whether the pair of these numbers is looked for.
    ghost sought: { Self → ℕ → ℕ → Type 0 };

    /// Whether the pair is sought; `first` is less than `second`.
    fn is_sought(&self, first: u32, second: u32) -> bool
        requires { can_test self.now first second }
        ensures { IsTrue result ↔ sought self.now first second };
}
