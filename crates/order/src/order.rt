ghost use Rattle.std.specs.Prelude.{◌≡◌, ℕ, Bool, true, false, ℤ};

/// What a search for the best rank may rely on: ranks are made and compared by their arguments alone.
pub trait Order {
    /// The kind of rank that this order compares.
    type Rank: Copy + Drop;

    // The rank of a band and a value.
    ghost rank: { Self → ℕ → ℤ → Self.Rank };

    // Whether the first rank is better than the second.
    ghost better: { Self → Self.Rank → Self.Rank → Bool };

    /// The rank of a rule's band and the value of its rank operand.
    fn rank(&self, band: u8, value: i32) -> Self::Rank
        ensures value { result ≡ rank self.now band value };

    /// Whether a is better than b.
    fn is_better(&self, a: Self::Rank, b: Self::Rank) -> bool
        ensures value { result ≡ better self.now a b };

    // No rank is better than itself.
    ghost never: { (o : Self) (a : Self.Rank) → better o a a ≡ false };

    // Better than a better one is better.
    ghost chains: { (o : Self) (a b c : Self.Rank) → better o a b ≡ true → better o b c ≡ true → better o a c ≡ true };

    // If neither of two is better, any third stands alike to both.
    ghost level: { (o : Self) (a b c : Self.Rank) → better o a b ≡ false → better o b a ≡ false → (better o c a ≡ better o c b) × (better o a c ≡ better o b c) };
}
