// What holds of all definitions.
ghost use Rattle.sheet_define_reading.specs.Laws.{OneDefinition, ReadsStand, StandingAreRead};

/// A text stands for one definition at most.
pub fn texts_stand_for_one_definition()
    ensures { OneDefinition }
{}

/// What is read of tokens stands there by the productions.
pub fn what_is_read_stands_there()
    ensures { ReadsStand }
{}

/// What stands there by the productions is read.
pub fn what_stands_there_is_read()
    ensures { StandingAreRead }
{}
