//! Classes of numbers that the steps of two maps join: the least number of the class of each.

ghost use Rattle.std.specs.Prelude.{◌≡◌, ◌+◌, ◌<◌, ◌^◌, ◌∷◌, ◌++◌, [], true, false, if◌then◌else◌, length, get_or, slice_set, OnOk, IfOk, vec_len};
ghost use Rattle.sc_shape.specs.inside.Classes.{AreClassesBelow, AreLeast, StaysBelow};
ghost use Rattle.sc_shape.specs.Classes.{entry};

use std::alloc::{AllocError, Global};

/// Marks a number, with the least number of its class, and puts it after those that were reached, if it has no mark
/// yet.
fn reach(
    marks: &mut [bool],
    least: &mut [u32],
    reached: &mut Vec<u32>,
    number: u32,
    start: u32,
) -> Result<(), AllocError>
    requires inside { number < length marks.old }
    requires as_many { length least.old ≡ length marks.old }
    ensures marks { OnOk result (marks.new ≡ slice_set marks.old number true) }
    ensures least { OnOk result (least.new ≡ (if get_or marks.old number false then least.old else slice_set least.old number start)) }
    ensures reached { OnOk result (reached.new.items ≡ (if get_or marks.old number false then reached.old.items else reached.old.items ++ number ∷ [])) }
{
    if !marks[number as usize] {
        reached.push(number)?;
        marks[number as usize] = true;
        least[number as usize] = start;
    }
    Ok(())
}

/// Marks the class of a number that has no mark, and that is the least of it.
fn spread(
    first: &[u32],
    second: &[u32],
    marks: &mut [bool],
    least: &mut [u32],
    reached: &mut Vec<u32>,
    start: u32,
) -> Result<(), AllocError>
    requires as_many { length second.now ≡ length first.now }
    requires first { StaysBelow (length first.now) (entry first.now) }
    requires second { StaysBelow (length first.now) (entry second.now) }
    requires inside { start < length first.now }
    requires classes { AreClassesBelow (entry first.now) (entry second.now) (length first.now) marks.old least.old start }
    requires unmarked { get_or marks.old start false ≡ false }
    ensures { OnOk result (AreClassesBelow (entry first.now) (entry second.now) (length first.now) marks.new least.new (start + 1)) }
{
    reached.clear();
    reach(marks, least, reached, start, start)?;
    let mut done = 0;
    while done < reached.len() {
        let here = reached[done] as usize;
        reach(marks, least, reached, first[here], start)?;
        reach(marks, least, reached, second[here], start)?;
        done += 1;
    }
    Ok(())
}

/// Marks every number, with the least number of its class.
fn spread_all(
    first: &[u32],
    second: &[u32],
    marks: &mut [bool],
    least: &mut [u32],
    reached: &mut Vec<u32>,
) -> Result<(), AllocError>
    requires few { length first.now < 2 ^ 32 }
    requires as_many { length second.now ≡ length first.now }
    requires first { StaysBelow (length first.now) (entry first.now) }
    requires second { StaysBelow (length first.now) (entry second.now) }
    requires classes { AreClassesBelow (entry first.now) (entry second.now) (length first.now) marks.old least.old 0 }
    ensures { OnOk result (AreLeast (entry first.now) (entry second.now) (length first.now) least.new) }
{
    for start in 0..first.len() as u32 {
        if !marks[start as usize] {
            spread(first, second, marks, least, reached, start)?;
        }
    }
    Ok(())
}

/// For each number the least one from which steps of the two maps lead to it.
pub(crate) fn least_of_classes(
    alloc: Global,
    first: &[u32],
    second: &[u32],
) -> Result<Vec<u32>, AllocError>
    requires few { length first.now < 2 ^ 32 }
    requires as_many { length second.now ≡ length first.now }
    requires first { StaysBelow (length first.now) (entry first.now) }
    requires second { StaysBelow (length first.now) (entry second.now) }
    ensures { IfOk result (λ least. AreLeast (entry first.now) (entry second.now) (length first.now) least.items) }
{
    let mut marks = vec![in alloc; false; first.len()]?;
    let mut least = vec![in alloc; 0; first.len()]?;
    let mut reached = Vec::new(alloc);
    spread_all(
        first,
        second,
        marks.as_mut_slice(),
        least.as_mut_slice(),
        &mut reached,
    )?;
    Ok(least)
}
