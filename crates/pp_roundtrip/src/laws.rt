//! What printing and reading come to together, as calls whose contracts are the laws.
ghost use Rattle.pp_roundtrip.specs.Laws.{ReadAlone, ReadAmong, OwnNames, ReadAsFact, NoOtherAtoms, NamesOfTexts};

/// A printed term is read as the same term, alone or after other tokens, with each variable by its name; and a printed
/// atom with a point behind it is read as the fact of the same arguments.
pub fn printed_terms_are_read_back()
    ensures alone { ReadAlone }
    ensures among { ReadAmong }
    ensures variables { OwnNames }
    ensures fact { ReadAsFact }
{}

/// What these laws ask of names is no more than printing needs, and the names of every text meet it.
pub fn read_names_are_printed()
    ensures needed { NoOtherAtoms }
    ensures met { NamesOfTexts }
{}
