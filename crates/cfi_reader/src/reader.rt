//! How far the unit that is being read is read, and one word more.

ghost use Rattle.std.specs.Prelude.{◌≡◌, ◌≢◌, ◌≤◌, ℕ, List, true, false, length};
ghost use Rattle.rv_word.specs.Numbers.{MOST_NUMBERS};
ghost use Rattle.cfi_unit.specs.Opens.{InCode};
ghost use Rattle.cfi_reader.specs.Reading.{Closes, IsReading, LeadsOn, START, is_new, is_stuck};
ghost use Rattle.cfi_reader.specs.Nodes.{rest_of};
ghost use Rattle.cfi_reader.specs.Trying.{Ended};
ghost use Rattle.cfi_reader.specs.declared.reader.Step.TheVariants as S;

use crate::entry::Entry;
use crate::kept::{count_by, entry_by, label_after, open_entry};
use crate::matching::matches;
use crate::node::{Else, Next, led_by, row_at};
use cfi_unit::End;
use rv_instr::Immediate;
use rv_word::Numbers;

/// How far a unit is read.
#[derive(Clone, Copy)]
pub struct Reader {
    /// The node of the table.
    pub(crate) node: u8,
    /// How many numbers of system calls it tests so far, if they are the list's first.
    pub(crate) numbers: u8,
    /// The label that it asks for, once that is read.
    pub(crate) label: Immediate<20>,
}

/// Where one word more leads.
#[derive(Clone, Copy)]
pub enum Step {
    /// The unit is read further.
    More(Reader),
    /// The unit has ended.
    Done(Entry),
    /// It ended before the word.
    Before(Entry),
}

impl Reader {
    /// No word is read yet.
    pub fn new() -> Self
        ensures { result ≡ START }
    {
        Reader {
            node: 1,
            numbers: 0,
            label: Immediate::of(0),
        }
    }

    /// Whether no word is read yet.
    pub fn is_new(self) -> bool
        ensures { result ≡ is_new self }
    {
        self.node == 1
    }

    /// Whether no unit begins so, whatever follows.
    pub fn is_stuck(self) -> bool
        ensures { result ≡ is_stuck self }
    {
        self.node == 0
    }

    /// Reads one word more, which stands at an address, if it is the only one with which the unit goes on, or one of its stores;
    /// otherwise nothing changes.
    #[inline(always)]
    pub fn pass(&mut self, word: u32, here: u64) -> bool
        ensures on { result ≡ true → (calls : List ℕ) → length calls ≤ MOST_NUMBERS → InCode here 1 → LeadsOn calls self.old word here (S.More self.new) }
        ensures same { result ≡ false → self.new ≡ self.old }
    {
        match led_by(self.node, word, here) {
            Some(node) => {
                self.node = node;
                true
            }
            None => false,
        }
    }

    /// The entry of what is read, where no word follows, if it is a unit.
    pub fn close(self) -> Option<Entry>
        ensures { (calls held : List ℕ) (at : ℕ) → IsReading calls self held at → Closes calls held at result }
    {
        if self.node == 1 {
            return None;
        }
        match ended(self.node) {
            Some(end) => Some(open_entry(end)),
            None => None,
        }
    }
}

/// Reads one word more, which stands at an address, under a list of system calls: it is asked for the pattern of one node
/// after another.
#[inline(always)]
pub fn next(calls: &Numbers, reader: Reader, word: u32, here: u64) -> Step
    requires place { InCode here 1 }
    requires begun { is_new reader ≡ false }
    ensures { LeadsOn calls.now reader word here result }
{
    let _few = calls.len();
    let mut node = reader.node;
    'asked: loop {
        let row = row_at(node);
        if matches(row.0, word, here) {
            let numbers = count_by(calls, row.0, word, reader.numbers);
            let label = label_after(row.0, word, reader.label);
            return match row.1 {
                Next::More(node) => Step::More(Reader {
                    node,
                    numbers,
                    label,
                }),
                Next::Done(end) => Step::Done(entry_by(calls, end, numbers, label, word)),
            };
        }
        match row.2 {
            Else::Try(other) => node = other,
            Else::Ended(end) => return Step::Before(open_entry(end)),
            Else::Stuck => return Step::More(Reader { node: 0, ..reader }),
        }
    }
}

/// Which unit has ended at a node, if no word follows.
fn ended(node: u8) -> Option<End>
    requires { node ≢ 1 }
    ensures { Ended (rest_of node) result }
{
    match row_at(node).2 {
        Else::Try(other) => ended(other),
        Else::Ended(end) => Some(end),
        Else::Stuck => None,
    }
}
