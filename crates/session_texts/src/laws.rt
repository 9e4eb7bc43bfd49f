//! Laws of module texts that change.
ghost use Rattle.session_texts.specs.Laws.{PutsKeep, ReplacedKeep, ReplacedNone, TextOfPut, TextOfReplaced, TextOfWithout, WithoutKeep};

/// After a change each name has the text that was put or, where none was, the one that it had; a name that goes has none.
pub fn texts_after_changes()
    ensures put { TextOfPut }
    ensures replaced { TextOfReplaced }
    ensures without { TextOfWithout }
{}

/// Changes keep that each text is the module of its name, alone, and that no two have one name.
pub fn changes_keep_modules()
    ensures put { PutsKeep }
    ensures replaced { ReplacedKeep }
    ensures without { WithoutKeep }
{}

/// Texts that replace none are the texts.
pub fn replacing_none()
    ensures { ReplacedNone }
{}
