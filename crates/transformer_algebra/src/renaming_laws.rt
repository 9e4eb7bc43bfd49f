//! What is known of renaming.
ghost use Rattle.transformer_algebra.specs.RenamingLaws.{RenamingKeepsPoints};

/// Law of `rename_all`: a point that reads the replacement of each variable and meets the system is a point of the
/// renamed system. For all namings, also those that give two variables one name.
pub fn renaming_keeps_points()
    ensures { RenamingKeepsPoints }
{}
