// The laws of strings and labels. The functions do nothing.
ghost use Rattle.std.specs.Prelude.{◌≡◌, ◌++◌, ℕ, List, Some};
ghost use Rattle.draw_top.specs.Quoting.{quoted, marked_up};
ghost use Rattle.draw_top.specs.Reading.{read_quoted, read_marked, HasNoTag};

/// A quoted string, whatever stands after it, reads back as the bytes that it quotes.
pub fn quoted_strings_read_back()
    ensures { (bytes others : List ℕ) → read_quoted (quoted bytes ++ others) ≡ Some (bytes, others) }
{}

/// The text of a label has no tag that was not put there, and reads back as the bytes that it says.
pub fn marked_text_reads_back()
    ensures tags { (bytes : List ℕ) → HasNoTag (marked_up bytes) }
    ensures again { (bytes : List ℕ) → read_marked (marked_up bytes) ≡ bytes }
{}
