//! The laws of findings.
ghost use Rattle.pp_sld.specs.LawsOfFindings.{FindingsJoin, FindingOfSame, AnswerIsAdded, LooseIsAdded, OutcomeIsVerdict, SettledStays, FindingFits, LeavesFit, LeavesJoin, FittingIsFound, EmptyFits, JoinFits, EmptyIsUnit, JoinIsIdempotent, JoinCommutes, JoinAssociates, BelowStays, CoveredAddsNothing, SubtreeAddsNothing};

/// What is known of a search may be gathered in parts, two findings joined at a time or a row at a time, in any
/// order and with repeats; the outcome of the whole is the verdict. Once a finding is settled, the rest of the
/// search may be left out.
pub fn findings_give_the_verdict()
    ensures join { FindingsJoin }
    ensures same { FindingOfSame }
    ensures answer { AnswerIsAdded }
    ensures loose { LooseIsAdded }
    ensures outcome { OutcomeIsVerdict }
    ensures settled { SettledStays }
{}

/// The findings that fit a mode and a call are closed under joins, and they are those of rows and leaves.
pub fn findings_fit()
    ensures rows { FindingFits }
    ensures leaves { LeavesFit }
    ensures parts { LeavesJoin }
    ensures found { FittingIsFound }
    ensures empty { EmptyFits }
    ensures join { JoinFits }
{}

/// Findings that fit are a lattice: joining has the empty finding as its unit, and neither order, grouping nor
/// repeats matter. What lies above a settled finding is settled too, with the same outcome.
pub fn findings_are_a_lattice()
    ensures unit { EmptyIsUnit }
    ensures idempotent { JoinIsIdempotent }
    ensures commutes { JoinCommutes }
    ensures associates { JoinAssociates }
    ensures stays { BelowStays }
{}

/// With `most`, what the generalisation of some answers covers adds nothing: rows, and the whole subtree of a
/// configuration whose row it covers.
pub fn covered_rows_add_nothing()
    ensures rows { CoveredAddsNothing }
    ensures subtree { SubtreeAddsNothing }
{}
