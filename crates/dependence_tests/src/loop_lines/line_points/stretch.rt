// Stretches of whole numbers, and what an inequality leaves of one.
ghost use Rattle.std.specs.Prelude.{◌≡◌, ◌≤◌, ◌↔◌, ◌^◌, ℤ, pos, ◌*ℤ◌, ◌≤ℤ◌, ◌<ℤ◌, unsigned_abs};
ghost use Rattle.dependence_tests.specs.loop_lines.line_points.Stretch.{IsIn, IsShort};

/// The whole numbers from `low` to `high`; none where `low` is the greater one.
#[derive(Clone, Copy, Debug)]
pub struct Stretch {
    pub low: i128,
    pub high: i128,
}

/// The greatest whole number that `k` times isn't above `n`.
pub fn floor(n: i128, k: i128) -> i128
    requires positive { pos 0 <ℤ k }
    requires size { unsigned_abs n ≤ 2 ^ 110 }
    ensures below { (s : ℤ) → (s ≤ℤ result) ↔ ((k *ℤ s) ≤ℤ n) }
    ensures size { unsigned_abs result ≤ unsigned_abs n }
{
    n.div_euclid(k)
}

/// What is left of a stretch where `k` times the number is to be at least `m`.
pub fn at_least(stretch: Stretch, k: i128, m: i128) -> Stretch
    requires short { IsShort stretch }
    requires k_size { unsigned_abs k ≤ 2 ^ 110 }
    requires m_size { unsigned_abs m ≤ 2 ^ 110 }
    ensures left { (s : ℤ) → IsIn result s ↔ (IsIn stretch s × (m ≤ℤ (k *ℤ s))) }
    ensures short { IsShort result }
{
    if k > 0 {
        let least = -floor(-m, k);
        if least > stretch.low {
            Stretch {
                low: least,
                high: stretch.high,
            }
        } else {
            stretch
        }
    } else if k < 0 {
        let greatest = floor(-m, -k);
        if greatest < stretch.high {
            Stretch {
                low: stretch.low,
                high: greatest,
            }
        } else {
            stretch
        }
    } else if m > 0 {
        Stretch { low: 1, high: 0 }
    } else {
        stretch
    }
}
