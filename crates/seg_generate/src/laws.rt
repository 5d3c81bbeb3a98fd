//! The laws, each on a function without a body's work.
ghost use Rattle.seg_generate.specs.GeneratedTexts.{DefaultTakesTexts, GeneratedInputsAreValid};

/// Where `default` is known and takes the generated texts, no generated input is refused, whatever its seed.
pub fn generated_inputs_are_valid()
    ensures { GeneratedInputsAreValid }
{}

/// Where `default` is the name of the default tokenizer, it takes them.
pub fn default_takes_texts()
    ensures { DefaultTakesTexts }
{}
