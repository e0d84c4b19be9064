//! How many sides each class has.

ghost use Rattle.std.specs.Prelude.{◌≡◌, ℕ, ◌<◌, ◌^◌, true, length, IfOk};
ghost use Rattle.sc_shape.specs.Classes.{entry};
ghost use Rattle.sc_shape.specs.inside.SideLists.{AreTallies, PointInside};
ghost use Rattle.sc_shape.specs.SideLists.{is_own};

use std::alloc::{AllocError, Global};

/// Counts the numbers of each class at its least number.
fn tally(least: &[u32], counts: &mut [u32])
    requires few { length least.now < 2 ^ 32 }
    requires inside { PointInside least.now }
    requires as_many { length counts.old ≡ length least.now }
    requires none { (r : ℕ) → entry counts.old r ≡ 0 }
    ensures { AreTallies (λ _. true) least.now (length least.now) counts.new }
{
    for class in least {
        counts[*class as usize] += 1;
    }
}

/// Counts the numbers of each class that are the least of their inner class.
fn tally_inner(least: &[u32], inner: &[u32], counts: &mut [u32])
    requires few { length least.now < 2 ^ 32 }
    requires inside { PointInside least.now }
    requires as_many { length counts.old ≡ length least.now }
    requires as_many_inner { length inner.now ≡ length least.now }
    requires none { (r : ℕ) → entry counts.old r ≡ 0 }
    ensures { AreTallies (is_own inner.now) least.now (length least.now) counts.new }
{
    for (number, class) in least.iter().enumerate() {
        if inner[number] as usize == number {
            counts[*class as usize] += 1;
        }
    }
}

/// How many numbers each class has, at its least number.
pub(crate) fn sizes_of(alloc: Global, least: &[u32]) -> Result<Vec<u32>, AllocError>
    requires few { length least.now < 2 ^ 32 }
    requires inside { PointInside least.now }
    ensures { IfOk result (λ sizes. AreTallies (λ _. true) least.now (length least.now) sizes.items) }
{
    let mut sizes = vec![in alloc; 0; least.len()]?;
    tally(least, sizes.as_mut_slice());
    Ok(sizes)
}

/// How many inner classes each class has, at its least number.
pub(crate) fn inner_classes_of(
    alloc: Global,
    least: &[u32],
    inner: &[u32],
) -> Result<Vec<u32>, AllocError>
    requires few { length least.now < 2 ^ 32 }
    requires inside { PointInside least.now }
    requires as_many { length inner.now ≡ length least.now }
    ensures { IfOk result (λ counts. AreTallies (is_own inner.now) least.now (length least.now) counts.items) }
{
    let mut counts = vec![in alloc; 0; least.len()]?;
    tally_inner(least, inner, counts.as_mut_slice());
    Ok(counts)
}
