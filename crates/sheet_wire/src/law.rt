// What is read of printed lines.
ghost use Rattle.sheet_wire.specs.Agreeing.{LinesReadBack};

/// A line that reads back is read as its request, unless memory runs out; what asks for the items that a view rests on
/// is then of a later form.
pub fn lines_read_back()
    ensures { LinesReadBack }
{}
