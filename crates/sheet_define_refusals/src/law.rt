// What holds of all texts that are refused.
ghost use Rattle.sheet_define_refusals.specs.Laws.{RefusedAtTheFirst, RefusedForNesting};

/// Where a text is refused for what stands there, it is at the first of its tokens such that those up to and with it
/// begin no definition: those before it begin one. At the end of the text they begin a definition and are none.
pub fn texts_are_refused_at_the_first_token_that_goes_on_with_no_definition()
    ensures { RefusedAtTheFirst }
{}

/// Where a text is refused for nesting, the 33rd open bracket of a formula stands there, or a form of depth 33 begins,
/// or the 17th open block of statements; and the tokens before begin a definition.
pub fn what_is_refused_for_nesting_is_nested_too_deeply()
    ensures { RefusedForNesting }
{}
