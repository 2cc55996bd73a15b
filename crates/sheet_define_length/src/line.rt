// How long margins and closing lines are.
ghost use Rattle.std.specs.Prelude.{ℕ, List, ◌≡◌, ◌++◌, codes};
ghost use Rattle.sheet_define_data.specs.Printing.{line_at, margin as margin_of};
ghost use Rattle.sheet_define_length.specs.Counting.{Counts};

use crate::words::count;

// Counts a margin of that length.
pub(crate) fn count_width(total: usize, width: usize) -> usize
    ensures { (m : List ℕ) → Counts 0 width m → Counts total result m }
{
    total.saturating_add(width)
}

// Counts the line that closes a brace, behind a margin of that length.
pub(crate) fn count_closing(total: usize, width: usize) -> usize
    ensures { (m : List ℕ) → Counts 0 width m → Counts total result (line_at m (codes "}")) }
{
    let total = count_width(total, width);
    count(total, b"}\n")
}

// Counts the margin inside so many braces.
pub(crate) fn count_margin(total: usize, depth: u64) -> usize
    ensures { Counts total result (margin_of depth) }
{
    let mut sum = total;
    for _ in 0..depth {
        sum = count(sum, b"  ");
    }
    sum
}
