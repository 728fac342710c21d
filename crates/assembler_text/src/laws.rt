//! What a text says is a function of its bytes.

ghost use Rattle.std.specs.Prelude.{◌≡◌, ℕ, List};
ghost use Rattle.assembler_lines.specs.declared.line.Line.{Line};
ghost use Rattle.assembler_lines.specs.Lines.{IsLine};
ghost use Rattle.assembler_text.specs.declared.lines.TextLines.{TextLines};
ghost use Rattle.assembler_text.specs.TextLines.{AreLinesOf};

/// Bytes are one line at most.
pub fn bytes_are_one_line()
    ensures { (text : List ℕ) (line other : Line) → IsLine text line → IsLine text other → line ≡ other }
{}

/// A text has one list of lines at most.
pub fn text_has_one_list_of_lines()
    ensures { (text : List ℕ) (made others : TextLines) → AreLinesOf text made → AreLinesOf text others → made ≡ others }
{}
