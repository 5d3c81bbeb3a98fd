//! What the definitions say together.
ghost use Rattle.seg_tokens.specs.SeparatedWords.{TokensAreWords};

/// The tokens of a text are its words in order, each at its bytes.
pub fn tokens_are_words()
    ensures { TokensAreWords }
{}
