//! The law of what was published last.
ghost use Rattle.tb_lsp_published.specs.LastPublished.{OpenTextsArePublished};

use tb_compiled::Compile;

/// In each dialogue of a new server the findings of each text that is open were published last, and of no other text any.
/// The function does nothing: its clause is the law.
pub fn open_texts_are_published<K: Compile>()
    ensures { OpenTextsArePublished K.own }
{}
