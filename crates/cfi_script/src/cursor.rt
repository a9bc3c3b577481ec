ghost use Rattle.std.specs.Prelude.{◌≡◌, ◌≤◌, ◌<◌, ◌+◌, ◌-◌, ◌^◌, get_or, length, min, nat_lt, if◌then◌else◌};
ghost use Rattle.cfi_script.specs.Turns.{hart_in_turn};
ghost use Rattle.cfi_script.specs.TurnPlace.{ComesAfter, IsTurnAt, IsTurnOf};

/// Where a script is among its turns: the index of a turn, how many steps come before it, and how many before the next one,
/// or the greatest number.
#[derive(Clone, Copy)]
pub(crate) struct Cursor {
    pub(crate) index: usize,
    pub(crate) before: u64,
    pub(crate) end: u64,
}

/// At the turn with an index, which comes after so many steps.
fn turn_at(turns: &[(u8, u64)], index: usize, before: u64) -> Cursor
    requires within { index ≤ length turns.now }
    requires after { ComesAfter turns.now index before }
    ensures turn { IsTurnAt turns.now result.index result.before result.end }
    ensures index { result.index ≡ index }
    ensures before { result.before ≡ before }
    ensures end { result.end ≡ if nat_lt index (length turns.now) then min (before + (get_or turns.now index (0, 0)).1) (2 ^ 64 - 1) else 2 ^ 64 - 1 }
{
    if index < turns.len() {
        Cursor {
            index,
            before,
            end: before.saturating_add(turns[index].1),
        }
    } else {
        Cursor {
            index,
            before,
            end: u64::MAX,
        }
    }
}

/// At the first turn.
pub(crate) fn at_first(turns: &[(u8, u64)]) -> Cursor
    ensures { IsTurnAt turns.now result.index result.before result.end }
{
    turn_at(turns, 0, 0)
}

/// Goes on to the turn of the step after `step` steps, past the last turn where that is none's: gives its hart, and the number
/// of steps before the next turn. Where the next turn begins with that step, nothing is searched.
#[inline(always)]
pub(crate) fn turn_to(turns: &[(u8, u64)], cursor: &mut Cursor, step: u64) -> (u8, u64)
    requires { IsTurnAt turns.now cursor.old.index cursor.old.before cursor.old.end }
    ensures turn { IsTurnAt turns.now cursor.new.index cursor.new.before cursor.new.end }
    ensures hart { IsTurnOf turns.now step result }
{
    if step == cursor.end && step < u64::MAX {
        let next = cursor.index + 1;
        if next < turns.len() && turns[next].1 > 0 {
            let end = step.saturating_add(turns[next].1);
            cursor.index = next;
            cursor.before = step;
            cursor.end = end;
            return (turns[next].0, end);
        }
    }
    search(turns, cursor, step)
}

/// The same by a search.
#[inline(never)]
fn search(turns: &[(u8, u64)], cursor: &mut Cursor, step: u64) -> (u8, u64)
    requires { IsTurnAt turns.now cursor.old.index cursor.old.before cursor.old.end }
    ensures turn { IsTurnAt turns.now cursor.new.index cursor.new.before cursor.new.end }
    ensures hart { IsTurnOf turns.now step result }
{
    let found = searched(turns, *cursor, step);
    *cursor = found;
    (hart_at(turns, found.index), found.end)
}

/// The turn of the step after `step` steps; past the last turn where that is none's. From a step before the cursor it goes
/// from the first turn on.
fn searched(turns: &[(u8, u64)], cursor: Cursor, step: u64) -> Cursor
    requires { IsTurnAt turns.now cursor.index cursor.before cursor.end }
    ensures turn { IsTurnAt turns.now result.index result.before result.end }
    ensures reached { result.before ≤ step }
    ensures more { step + 1 < 2 ^ 64 → step < result.end }
    ensures there { hart_in_turn turns.now step ≡ (get_or turns.now result.index (0, 0)).0 }
{
    let mut index = 0;
    let mut before = 0;
    if cursor.before <= step {
        index = cursor.index;
        before = cursor.before;
    }
    while index < turns.len() && step - before >= turns[index].1 {
        before += turns[index].1;
        index += 1;
    }
    turn_at(turns, index, before)
}

/// The hart of the turn with an index; 0 past the last.
fn hart_at(turns: &[(u8, u64)], index: usize) -> u8
    ensures { result ≡ (get_or turns.now index (0, 0)).0 }
{
    if index < turns.len() {
        turns[index].0
    } else {
        0
    }
}
