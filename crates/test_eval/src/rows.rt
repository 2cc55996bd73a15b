// Rows of a table, each for an object and a column.
ghost use Rattle.std.specs.Prelude.{◌≡◌};
ghost use Rattle.std.specs.Option.{option_copied};
ghost use Rattle.test_eval.specs.Rows.{found};

/// What is held for an object and a column.
#[derive(Drop)]
pub struct Row<T: Drop> {
    pub object: u64,
    pub column: u32,
    pub held: T,
}

/// What the first row of an object and a column holds.
pub fn held_at<T: Drop>(rows: &[Row<T>], object: u64, column: u32) -> Option<&T>
    ensures { option_copied result ≡ found rows.now object column }
{
    let mut rest = rows;
    while let Some((row, more)) = rest.split_first() {
        if row.object == object && row.column == column {
            return Some(&row.held);
        }
        rest = more;
    }
    None
}
