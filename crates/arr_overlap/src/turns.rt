//! How many steps of one size leave a multiple of another size.
ghost use Rattle.std.specs.Prelude.{ℕ, ◌≡◌, ◌≤◌, ◌+◌, ◌*◌, IfSome, None};

/// What Euclid's algorithm finds of two sizes: so many steps of the first leave, beyond multiples of the second, a divisor of both.
/// It is tested where it is used.
#[derive(Clone, Copy, Default)]
pub(crate) struct Turns {
    count: u32,
    divisor: u32,
}

/// The count of steps of the first size that leave the greatest common divisor of both, beyond multiples of the second.
pub(crate) fn turns_of(step: u64, other: u64) -> Turns
    requires step { step ≤ 2147483648 }
    requires other { (1 ≤ other) × (other ≤ 2147483648) }
{
    let mut divisor = step;
    let mut rest = other;
    let mut count = 1;
    let mut next = 0;
    while rest != 0 {
        let after = (count + divisor / rest * (other - next)) % other;
        let left = divisor % rest;
        divisor = rest;
        rest = left;
        count = next;
        next = after;
    }
    Turns {
        count: count as u32,
        divisor: divisor as u32,
    }
}

/// The first count, from `least` on, of steps of one size that may leave a multiple of another of a target; `None` where none does.
pub(crate) fn first_count(
    turns: Turns,
    step: u64,
    other: u64,
    target: u64,
    least: u64,
) -> Option<u64>
    requires step { step ≤ 2147483648 }
    requires other { (1 ≤ other) × (other ≤ 2147483648) }
    ensures none { result ≡ None → (k j : ℕ) → target ≡ k * step + j * other → ⊥ }
    ensures first { IfSome result (λ first. (k j : ℕ) → least ≤ k → target ≡ k * step + j * other → first ≤ k) }
{
    let count = u64::from(turns.count);
    let divisor = u64::from(turns.divisor);
    if divisor == 0 {
        return Some(least);
    }
    if step % divisor != 0 || other % divisor != 0 {
        return Some(least);
    }
    if count * step % other != divisor % other {
        return Some(least);
    }
    if target % divisor != 0 {
        return None;
    }
    let left = count * (target % other) % other;
    let period = other / divisor;
    let gap = (left / divisor + (period - least % period)) % period;
    Some(least.saturating_add(gap))
}
