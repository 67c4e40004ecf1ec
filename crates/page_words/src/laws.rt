//! What holds of all pages, as the contract of a call that does nothing.

ghost use Rattle.page_words.specs.Page.{MarkupStaysOut};

/// No `<` of a value stands in its page.
pub fn page_laws()
    ensures { MarkupStaysOut }
{}
