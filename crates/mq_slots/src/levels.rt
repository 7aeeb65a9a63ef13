//! The table of the priorities in use, with the last slot of each.
ghost use Rattle.std.specs.Prelude.{◌≡◌, ℕ, ◌+◌, ◌<◌, ◌≤◌, length, vec_len, vec_capacity};
ghost use Rattle.mq_slots.specs.Levels.{level_at, last_from, noted, dropped, IsRising};

/// A level: a priority in use, and the slot of its newest message. It is small, because an
/// insertion moves the levels above it.
#[derive(Clone, Copy, Debug, PartialEq, Eq)]
pub struct Level {
    pub prio: u16,
    pub last: u16,
}

// The level of a priority and its last slot.
#[inline(always)]
fn small(prio: u32, last: u32) -> Level
    requires prio { prio < 65536 }
    requires last { last < 65536 }
    ensures { result ≡ record { prio = prio; last = last } }
{
    Level {
        prio: prio as u16,
        last: last as u16,
    }
}

/// How many levels have a lower priority: the index of the level of this priority or of the next
/// higher one.
pub fn find_level(levels: &[Level], prio: u32) -> usize
    requires { IsRising levels.now }
    ensures within { result ≤ length levels.now }
    ensures below { (k : ℕ) → k < result → (level_at levels.now k).prio < prio }
    ensures rest { (k : ℕ) → result ≤ k → k < length levels.now →
        prio ≤ (level_at levels.now k).prio }
{
    let mut low = 0;
    let mut high = levels.len();
    while low < high {
        let middle = low + (high - low) / 2;
        if u32::from(levels[middle].prio) < prio {
            low = middle + 1;
        } else {
            high = middle;
        }
    }
    low
}

/// The last slot of the level with this index, or the head of the list if there is none.
#[inline(always)]
pub fn last_from(levels: &[Level], at: usize) -> u32
    ensures { result ≡ last_from levels.now at }
{
    if at < levels.len() {
        u32::from(levels[at].last)
    } else {
        0
    }
}

/// Sets the slot of the newest message of a priority. Its level has this index, or is inserted
/// there.
#[inline(always)]
pub fn note_level(levels: &mut Vec<Level>, at: usize, prio: u32, last: u32)
    requires within { at ≤ vec_len levels.old }
    requires room { vec_len levels.old < vec_capacity levels.old }
    requires prio { prio < 65536 }
    requires last { last < 65536 }
    ensures items { levels.new.items ≡ noted levels.old.items at prio last }
    ensures capacity { vec_capacity levels.old ≤ vec_capacity levels.new }
{
    if at >= levels.len() {
        levels.push_reserved(small(prio, last));
        return;
    }
    if u32::from(levels[at].prio) == prio {
        levels[at] = small(prio, last);
        return;
    }
    let Ok(()) = levels.insert(at, small(prio, last)) else {
        unreachable!()
    };
}

/// Removes the highest level if `slot` is its last one.
#[inline(always)]
pub fn drop_level(levels: &mut Vec<Level>, slot: u32)
    ensures items { levels.new.items ≡ dropped levels.old.items slot }
    ensures capacity { vec_capacity levels.old ≤ vec_capacity levels.new }
{
    let len = levels.len();
    if len > 0 && u32::from(levels[len - 1].last) == slot {
        let _ = levels.pop();
    }
}
