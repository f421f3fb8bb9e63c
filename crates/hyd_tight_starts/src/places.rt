//! Lists with a place for each junction or node. What lies past a list's end counts as nothing, and isn't written.
#![tactic(auto)]

ghost use Rattle.std.specs.Prelude.{◌≡◌, length};

/// The number at a place.
pub(crate) fn number_at(numbers: &[i64], place: u32) -> i64 {
    numbers.get(place as usize).copied().unwrap_or(0)
}

/// Puts a number to a place.
pub(crate) fn put_at(numbers: &mut [i64], place: u32, number: i64)
    ensures { length numbers.new ≡ length numbers.old }
{
    if let Some(entry) = numbers.get_mut(place as usize) {
        *entry = number;
    }
}

/// Adds to the number at a place.
pub(crate) fn add_at(numbers: &mut [i64], place: u32, more: i64)
    ensures { length numbers.new ≡ length numbers.old }
{
    if let Some(entry) = numbers.get_mut(place as usize) {
        *entry = entry.saturating_add(more);
    }
}

/// Whether a place is marked.
pub(crate) fn is_marked(marks: &[bool], place: u32) -> bool {
    marks.get(place as usize).copied().unwrap_or(false)
}

/// Marks a place, or takes its mark away.
pub(crate) fn mark(marks: &mut [bool], place: u32, to: bool)
    ensures { length marks.new ≡ length marks.old }
{
    if let Some(entry) = marks.get_mut(place as usize) {
        *entry = to;
    }
}

/// Copies as many numbers as both lists have.
pub(crate) fn copy(from: &[i64], into: &mut [i64])
    ensures { length into.new ≡ length into.old }
{
    for (entry, number) in into.iter_mut().zip(from) {
        *entry = *number;
    }
}
