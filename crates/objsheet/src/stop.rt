// How a run ended, or why it stopped before the end of its input.
use sheet_lines::ReadStop;
use sheet_outside::Failed;
use sheet_values::NoMemory;

/// How a run over an input ended that nothing stopped.
#[derive(Drop)]
pub enum Ending {
    /// All lines were answered.
    Done,
    /// The definition is refused, and this line says why.
    Refused(Vec<u8>),
}

/// How a run ended, or why it stopped before the end of its input.
#[derive(Clone, Copy, Debug, PartialEq, Eq)]
pub enum Stop {
    /// The input is too long.
    TooLong,
    /// The source failed.
    Source,
    /// The sink failed.
    Sink,
    /// There was no memory outside of an answered request.
    NoMemory,
}

impl From<ReadStop> for Stop {
    ghost use Rattle.std.specs.Prelude.{◌≡◌};
    ghost use Rattle.objsheet.specs.Serving.{stop_of};

    ghost from_gives = { λ read stop. stop ≡ stop_of read };

    fn from(stop: ReadStop) -> Self {
        match stop {
            ReadStop::Source => Stop::Source,
            ReadStop::TooLong => Stop::TooLong,
            ReadStop::NoMemory => Stop::NoMemory,
        }
    }
}

impl From<NoMemory> for Stop {
    ghost use Rattle.std.specs.Prelude.{◌≡◌};
    ghost use Rattle.objsheet.specs.declared.stop.Stop.TheVariants.{NoMemory as no_memory};

    ghost from_gives = { λ _ stop. stop ≡ no_memory };

    fn from(_: NoMemory) -> Self {
        Stop::NoMemory
    }
}

impl From<Failed> for Stop {
    ghost use Rattle.std.specs.Prelude.{◌≡◌};
    ghost use Rattle.objsheet.specs.declared.stop.Stop.TheVariants.{Sink};

    ghost from_gives = { λ _ stop. stop ≡ Sink };

    fn from(_: Failed) -> Self {
        Stop::Sink
    }
}
