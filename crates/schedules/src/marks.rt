//! States that a search saved, to return to.
ghost use Rattle.std.specs.Prelude.{◌≡◌, ◌≤◌, ◌↔◌, length, take, None, Some, IfSome, IsTrue};
ghost use Rattle.std.specs.List.{Contains};
ghost use Rattle.schedules.specs.Marks.{IsOn, LeavesOthers, last_of};
ghost use Rattle.schedules.specs.declared.marks.Mark.{Mark};

/// A saved state, and the schedule that leads to it from the start.
#[derive(Drop)]
pub struct Mark<T> {
    pub schedule: Vec<u32>,
    pub saved: T,
}

// After more choices, a saved state may take too much memory.
const FAR: usize = 1 << 16;

// How near to the end of a path it takes less time to run its choices again than to copy a saved
// state: a copy takes longer the longer the path is.
fn nearest(len: usize) -> usize {
    2 + len / 64
}

/// Whether the state after the first `depth` choices of a path of `len` choices is worth saving, if
/// the last one saved is after the first `last` choices. It is if half of the choices from `last`
/// to the end are behind. So few states are saved, most of them near the end of the path.
pub fn is_worth(depth: usize, last: usize, len: usize) -> bool {
    let left = len.saturating_sub(depth);
    depth <= FAR && left >= nearest(len) && depth.saturating_sub(last) >= left
}

// Whether a schedule begins a path.
fn begins(schedule: &[u32], path: &[u32]) -> bool
    ensures { IsTrue result ↔ ((length schedule.now ≤ length path.now) ×
        (take (length schedule.now) path.now ≡ schedule.now)) }
{
    path.starts_with(schedule)
}

/// Removes the last marks until the schedule of the last one begins the path, or none is left.
pub fn leave_others<T: Drop>(marks: &mut Vec<Mark<T>>, path: &[u32])
    ensures { LeavesOthers path.now marks.old.items marks.new.items }
{
    while last_on(marks, path).is_none() {
        if marks.pop().is_none() {
            return;
        }
    }
}

/// The last mark, if its schedule begins the path.
pub fn last_on<'a, T>(marks: &'a [Mark<T>], path: &[u32]) -> Option<&'a Mark<T>>
    ensures on { IfSome result (λ mark. Contains marks.now mark.now × IsOn path.now mark.now) }
    ensures last { IfSome result (λ mark. last_of marks.now ≡ Some mark.now) }
    ensures none { result ≡ None →
        (mark : Mark T) → last_of marks.now ≡ Some mark → IsOn path.now mark → ⊥ }
{
    let mark = marks.last()?;
    if begins(&mark.schedule, path) {
        Some(mark)
    } else {
        None
    }
}
