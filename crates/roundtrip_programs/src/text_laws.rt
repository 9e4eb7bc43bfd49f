//! Laws of texts that are written and read again.
ghost use Rattle.roundtrip_programs.specs.Texts.Laws.{TextsReadBack, ModulesReadBack};

/// The text of all modules of a text, with added comment lines that reading drops, is read as these modules.
pub fn texts_read_back()
    ensures { TextsReadBack }
{}

/// The text of one module is read as that module alone.
pub fn modules_read_back()
    ensures { ModulesReadBack }
{}
