//! A law of tidy texts.
ghost use Rattle.tb_basic_format.specs.Texts.{TidyTextsStay};

/// A tidy text is its own tidy text. The function does nothing: its clause is the law.
pub fn tidy_texts_stay()
    ensures { TidyTextsStay }
{}
