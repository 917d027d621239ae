//! The value of a numeric word.
ghost use Rattle.std.specs.Prelude.{◌≡◌, ◌≤ℤ◌, ◌∷◌, pos, None, if◌then◌else◌, IfSome};
ghost use Rattle.apl_base.specs.Scalar.{in_range};
ghost use Rattle.apl_model.specs.Characters.{are_digits, decimal_after, number_of};

use crate::characters::digit;
use apl_base::Cell;

/// The greatest magnitude of a number.
const MOST: u128 = 1_000_000_000_000_000_000_000_000_000_000_000_000;

/// The value of one or more digits, where it is a number.
fn magnitude(digits: &[char]) -> Option<Cell>
    ensures same { result
        ≡ (if are_digits digits.now then in_range (pos (decimal_after 0 digits.now)) else None) }
    ensures within { IfSome result (λ z. (pos 0 ≤ℤ z) × (z ≤ℤ pos MOST)) }
{
    if digits.is_empty() {
        return None;
    }
    let mut value = 0u128;
    for c in digits {
        if !digit(*c) {
            return None;
        }
        value = value * 10 + u128::from(u32::from(*c) - 48);
        if value > MOST {
            return None;
        }
    }
    Some(value as Cell)
}

/// The value of one or more digits with ¯ before them.
fn negated(digits: &[char]) -> Option<Cell>
    ensures { result ≡ number_of (175 ∷ digits.now) }
{
    Some(-magnitude(digits)?)
}

/// The number that a numeric word writes, or none.
pub(crate) fn read_number(word: &[char]) -> Option<Cell>
    ensures { result ≡ number_of word.now }
{
    if word.is_empty() {
        return None;
    }
    if word[0] == '¯' {
        return negated(&word[1..]);
    }
    magnitude(word)
}
