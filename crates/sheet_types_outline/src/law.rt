// Laws over the definitions.
ghost use Rattle.sheet_types_outline.specs.Texts.{TextsAreOrderly};
ghost use Rattle.sheet_types_outline.specs.Within.{OutlinesAreWithin};

/// Every definition that a text stands for is orderly.
pub fn texts_are_orderly()
    ensures { TextsAreOrderly }
{}

/// Behind the root an outline has the declared columns in the order of the text. Its callers are of an object column, and so are
/// all types of objects in it.
pub fn outlines_are_within()
    ensures { OutlinesAreWithin }
{}
