//! Laws of the definitions, each as the contract of a function that does nothing.
ghost use Rattle.std.specs.Prelude.{◌≡◌, ◌≢◌, ℕ, suc, ◌<◌, ℤ, pos, ◌+ℤ◌, ◌*ℤ◌, ◌≤ℤ◌, ◌<ℤ◌, unsigned_abs};
ghost use Rattle.spx_num.specs.Exact.{quotient, remainder, modulus, power_of};

/// A number is made of its quotient and its remainder, and the remainder is nearer to zero than the divisor and has
/// the sign of the dividend (Ada 95 RM 4.5.5).
pub fn division_laws()
    ensures whole { (a b : ℤ) → b ≢ pos 0 → a ≡ (b *ℤ quotient a b) +ℤ remainder a b }
    ensures smaller { (a b : ℤ) → b ≢ pos 0 → unsigned_abs (remainder a b) < unsigned_abs b }
    ensures natural { (a b : ℤ) → pos 0 ≤ℤ a → pos 0 ≤ℤ remainder a b }
    ensures negative { (a b : ℤ) → a ≤ℤ pos 0 → remainder a b ≤ℤ pos 0 }
{}

/// A number is a whole multiple of the divisor and its modulus, and the modulus lies between zero and the divisor
/// (Ada 95 RM 4.5.5).
pub fn modulus_laws()
    ensures whole { (a b : ℤ) → (q : ℤ) × (a ≡ (b *ℤ q) +ℤ modulus a b) }
    ensures positive { (a b : ℤ) → pos 0 <ℤ b → (pos 0 ≤ℤ modulus a b) × (modulus a b <ℤ b) }
    ensures negative { (a b : ℤ) → b <ℤ pos 0 → (modulus a b ≤ℤ pos 0) × (b <ℤ modulus a b) }
{}

/// A power is a product of as many factors as its exponent says, and 1 where that is none (Ada 95 RM 4.5.6).
pub fn power_laws()
    ensures none { (a : ℤ) → power_of a 0 ≡ pos 1 }
    ensures more { (a : ℤ) (n : ℕ) → power_of a (suc n) ≡ a *ℤ power_of a n }
{}
