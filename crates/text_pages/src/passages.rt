ghost use Rattle.std.specs.Prelude.{◌≡◌, ◌≤◌, ◌<◌, ◌-◌, ℕ, List};
ghost use Rattle.text_lines.specs.Adding.{Adds};
ghost use Rattle.text_lines.specs.Views.{view_of};
ghost use Rattle.text_pages.specs.Passages.{texts_from};

use insar_ports::Sink;
use text_lines::TextWriter;

/// A text of passages, any of which can be made without those before them.
pub trait Passages {
    /// How many there are.
    ghost passages: { Self → ℕ };

    /// The text of each.
    ghost words: { Self → ℕ → List ℕ };

    /// What is known of each that was added.
    ghost known: { Self → ℕ → Type 0 };

    /// How many there are.
    fn count(&self) -> u32
        ensures { result ≡ passages self.now };

    /// How many bytes the longest has. A wrong number costs time, and nothing else.
    fn longest(&self) -> u32;

    /// Adds those from `from` to before `end`. After a fault they are only read.
    fn add<K: Sink>(&self, text: &mut TextWriter<K>, from: u32, end: u32)
        requires order { from ≤ end }
        requires within { end ≤ passages self.now }
        ensures added { Adds (view_of K.held K.faults text.old) (view_of K.held K.faults text.new) (texts_from (words self.now) from (end - from)) }
        ensures known { (i : ℕ) → from ≤ i → i < end → known self.now i };
}
