// What holds of printed definitions.
ghost use Rattle.std.specs.Prelude.{◌≤◌, ℕ, List};
ghost use Rattle.sheet_define_data.specs.declared.definition.Definition.{Definition};
ghost use Rattle.sheet_define_data.specs.Grammar.{IsDefinition};
ghost use Rattle.sheet_define_data.specs.Printing.{definition_text, printed_size};
ghost use Rattle.sheet_define_readback.specs.Lengths.{ExampleLengths};
ghost use Rattle.sheet_define_readback.specs.Back.{StandsButForLines};

/// The printed text of a definition that some text stands for stands for that definition, but for the lines, unless the
/// printed text has more than 262,144 bytes.
pub fn a_printed_definition_reads_back()
    ensures { (text : List ℕ) (d : Definition) → IsDefinition text d → printed_size d ≤ 262144 → StandsButForLines (definition_text d) d }
{}

/// The printed texts of the two examples have 440 and 615 bytes, that of the club has 1,653.
pub fn the_examples_and_the_club_have_their_lengths()
    ensures { ExampleLengths }
{}
