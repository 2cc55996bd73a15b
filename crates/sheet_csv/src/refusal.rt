// Why a CSV file has no rows.
use sheet_values::NoMemory;

/// Why a CSV file has no rows.
#[derive(Clone, Copy, Debug, PartialEq, Eq)]
pub enum CsvRefusal {
    /// The first field of the header, from 1, that names no parameter, or one that an earlier field names. Where a
    /// parameter is missing, it would stand behind the last one; in a file without a record it is 1.
    BadHeader(u32),
    /// The first record behind the header, from 1, that has another count of fields, or a field that isn't read.
    BadRow(u32),
    /// There was no memory.
    NoMemory,
}

impl From<NoMemory> for CsvRefusal {
    ghost use Rattle.std.specs.Prelude.{◌≡◌};
    ghost use Rattle.sheet_csv.specs.declared.refusal.CsvRefusal.TheVariants.{NoMemory as no_memory};

    ghost from_gives = { λ _ refusal. refusal ≡ no_memory };

    fn from(_: NoMemory) -> CsvRefusal {
        CsvRefusal::NoMemory
    }
}
