//! Values that are joined.
ghost use Rattle.std.specs.Prelude.{◌≡◌, ◌↔◌, Bool, true, IsTrue, IfOk};

use std::alloc::AllocError;

/// A join-semilattice with a least value, some of whose values are settled.
///
/// `fits` says which values are the lattice's own; each call takes and gives only such. The laws stand behind the
/// calls: `joined` is idempotent, commutative and associative with `bottom` as its unit, and what is settled keeps
/// its outcome whatever is joined to it.
pub trait Lattice: Sync {
    /// What is joined.
    type Value: Drop + Send + Sync;
    /// What a value comes to.
    type Outcome: Drop + Send + Sync;

    ghost fits: { Self → Self.Value → Type 0 };

    ghost bottom: { Self → Self.Value };

    ghost joined: { Self → Self.Value → Self.Value → Self.Value };

    ghost is_settled: { Self → Self.Value → Bool };

    ghost outcome_of: { Self → Self.Value → Self.Outcome };

    /// The least value.
    fn empty(&self) -> Self::Value
        ensures least { result ≡ bottom self.now }
        ensures fits { ∥ fits self.now result ∥₁ };

    /// A copy.
    fn copy_of(&self, a: &Self::Value) -> Result<Self::Value, AllocError>
        ensures { IfOk result (λ copy. copy ≡ a.now) };

    /// The least value that is above both.
    fn join(&self, a: &Self::Value, b: &Self::Value) -> Result<Self::Value, AllocError>
        requires left { ∥ fits self.now a.now ∥₁ }
        requires right { ∥ fits self.now b.now ∥₁ }
        ensures { IfOk result (λ value. value ≡ joined self.now a.now b.now) };

    /// Whether joining `a` to `b` changes nothing.
    fn below(&self, a: &Self::Value, b: &Self::Value) -> Result<bool, AllocError>
        requires left { ∥ fits self.now a.now ∥₁ }
        requires right { ∥ fits self.now b.now ∥₁ }
        ensures { IfOk result (λ is. IsTrue is ↔ (joined self.now a.now b.now ≡ b.now)) };

    /// Whether nothing that is joined can change the outcome.
    fn settled(&self, a: &Self::Value) -> bool
        requires { ∥ fits self.now a.now ∥₁ }
        ensures { result ≡ is_settled self.now a.now };

    /// What the value comes to.
    fn outcome(&self, a: &Self::Value) -> Result<Self::Outcome, AllocError>
        requires { ∥ fits self.now a.now ∥₁ }
        ensures { IfOk result (λ outcome. outcome ≡ outcome_of self.now a.now) };

    ghost bottom_fits: { (s : Self) → ∥ fits s (bottom s) ∥₁ };

    ghost joined_fits: { (s : Self) (a b : Self.Value) → ∥ fits s a ∥₁ → ∥ fits s b ∥₁ → ∥ fits s (joined s a b) ∥₁ };

    ghost unit: { (s : Self) (a : Self.Value) → ∥ fits s a ∥₁ → joined s (bottom s) a ≡ a };

    ghost idempotent: { (s : Self) (a : Self.Value) → ∥ fits s a ∥₁ → joined s a a ≡ a };

    ghost commutative: { (s : Self) (a b : Self.Value) → ∥ fits s a ∥₁ → ∥ fits s b ∥₁ → joined s a b ≡ joined s b a };

    ghost associative: { (s : Self) (a b c : Self.Value) → ∥ fits s a ∥₁ → ∥ fits s b ∥₁ → ∥ fits s c ∥₁ → joined s (joined s a b) c ≡ joined s a (joined s b c) };

    ghost settled_stays: { (s : Self) (a b : Self.Value) → ∥ fits s a ∥₁ → ∥ fits s b ∥₁ → joined s a b ≡ b → is_settled s a ≡ true → (is_settled s b ≡ true) × (outcome_of s a ≡ outcome_of s b) };
}
