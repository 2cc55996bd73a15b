// Who isn't admitted.
use sheet_values::NoMemory;

/// Why no caller is admitted, in the order of judging.
#[derive(Clone, Copy, Debug, PartialEq, Eq)]
pub enum AdmitRefusal {
    /// That caller has the key.
    KeyTaken(u32),
    /// That caller has the name.
    NameTaken(u32),
    /// There are so many callers already.
    TooMany(u32),
    /// There was no memory.
    NoMemory,
}

impl From<NoMemory> for AdmitRefusal {
    ghost use Rattle.std.specs.Prelude.{◌≡◌};
    ghost use Rattle.sheet_callers.specs.declared.admission.AdmitRefusal.TheVariants.{NoMemory as no_memory};

    ghost from_gives = { λ _ refusal. refusal ≡ no_memory };

    fn from(_: NoMemory) -> Self {
        AdmitRefusal::NoMemory
    }
}
