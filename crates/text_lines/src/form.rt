//! What a form of lines is.

ghost use Rattle.std.specs.Prelude.{◌≡◌, ◌++◌, true, List, IfOk, IfSome, OnOk, OnErr};
ghost use Rattle.text_lines.specs.Lines.{words_of};
ghost use Rattle.text_lines.specs.Reading.{FirstLine, LineRules};

use rv_word::NoMemory;
use std::alloc::Global;

/// A form of lines, while a text of them is read: what of the line before the next one rests on, and
/// what was collected.
pub trait LineForm {
    /// What a line spells.
    type Line: Drop;
    /// What of a line the order of the next one rests on.
    type Before;
    /// What is collected.
    type Item;

    /// The form.
    ghost rules: { Self → LineRules Self.Line Self.Before Self.Item };

    /// What is known of the line before.
    ghost before: { Self → Self.Before };

    /// What was collected so far.
    ghost items: { Self → List Self.Item };

    /// The line that these bytes spell, if they have the form of one.
    fn line_of(&self, alloc: Global, line: &[u8]) -> Result<Option<Self::Line>, NoMemory>
        ensures { IfOk result (λ l. l ≡ (rules self.now).spelled (words_of line.now)) };

    /// What the first line of a text spells, and what stands after that line, where the form tells it
    /// without a search for the newline. It may leave any text to the search.
    fn first_line<'a>(&self, _text: &'a [u8]) -> Option<(Self::Line, &'a [u8])>
        ensures { IfSome result (λ f. FirstLine (rules self.now) _text.now f.0 f.1.now) }
    {
        None
    }

    /// Whether the numbers of a line are allowed.
    fn in_range(&self, line: &Self::Line) -> bool
        ensures { result ≡ (rules self.now).in_range line.now };

    /// Whether a line may stand after the line before.
    fn in_order(&self, line: &Self::Line) -> bool
        ensures { result ≡ (rules self.now).in_order (before self.now) line.now };

    /// Collects a line; a refusal leaves the form as it was.
    fn add(&mut self, line: Self::Line) -> Result<(), NoMemory>
        requires { (rules self.old).in_range line ≡ true }
        ensures added { OnOk result (items self.new ≡ items self.old ++ (rules self.old).items line) }
        ensures after { OnOk result (before self.new ≡ (rules self.old).after line) }
        ensures refused { OnErr result (items self.new ≡ items self.old) }
        ensures stays { OnErr result (before self.new ≡ before self.old) }
        ensures kept { rules self.new ≡ rules self.old };
}
