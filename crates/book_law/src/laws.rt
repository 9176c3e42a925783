// The laws of the book of a run.
ghost use Rattle.book_law.specs.Laws.{EachRunIsPast, TablesStay, NodesStay, OfEachLine, OfEachRun, HasBothEnds, KeepsBook, TellsConfirmed};
ghost use Rattle.book_law.specs.Laws.{HandUpsAreTold, RunsTellHandUps, ConfirmationsHaveACause};
ghost use Rattle.book_law.specs.Laws.{HasWhatWasHeard, HearingKeepsCounts, ReportsTellCounts};
ghost use Rattle.book_law.specs.Laws.{HonestRunKeepsBook, HonestRunsKeepBook};

/// A law: each run of a script is that of lines carried out one behind another, those of its drains among them, from the chain that
/// its tables open. The tables stay; the chain has a node for each remote, the relay and the gNB, and no two of one name; and it
/// has both ends of each key of a bearer.
pub fn runs_pass_line_by_line()
    ensures past { EachRunIsPast }
    ensures tables { TablesStay }
    ensures nodes { NodesStay }
    ensures ends { OfEachLine HasBothEnds }
{}

/// A law: behind each line a key's sender has accepted as many SDUs as the history tells, and each that it still keeps is the one
/// submitted with that COUNT. A submission is answered by its COUNT, or by the confirmed number where as many as may be are
/// unconfirmed (TS 38.323 clauses 5.2.1 and 7.1).
pub fn senders_keep_the_book()
    ensures lines { OfEachLine KeepsBook }
    ensures runs { OfEachRun KeepsBook }
{}

/// A law: behind each line the confirmed number of a key that the history tells is that of its sender, and each event of it has
/// raised it (TS 38.323 clauses 5.3 and 5.4.2).
pub fn confirmed_numbers_are_told()
    ensures lines { OfEachLine TellsConfirmed }
    ensures runs { OfEachRun TellsConfirmed }
{}

/// A law: behind each line the SDUs of a key that the history shows as handed up are those of the longest run of COUNTs from the
/// first one on among all data PDUs that the key's receiver heard by these lines (TS 38.323 clause 5.2.2.1).
pub fn hand_ups_are_told()
    ensures lines { HandUpsAreTold }
    ensures runs { RunsTellHandUps }
{}

/// A law: where behind a line a key's sender doesn't keep an SDU that it kept before, its COUNT was confirmed by that line: a STATUS
/// PDU on a direct port acknowledged it, or a status report told of it (TS 38.323 clauses 5.3 and 5.4.2).
pub fn confirmations_have_a_cause()
    ensures { ConfirmationsHaveACause }
{}

/// A law: a receiving side has a COUNT, handed up or stored, exactly where it was heard; it has it still when it hears more; and its
/// status report tells which it has (TS 38.323 clauses 5.2.2.1 and 5.4.1).
pub fn receivers_have_what_was_heard()
    ensures heard { HasWhatWasHeard }
    ensures hearing { HearingKeepsCounts }
    ensures reports { ReportsTellCounts }
{}

/// A law: if each data PDU that a key's receiver hears is that of an SDU submitted before and isn't too old, and each COUNT that is
/// confirmed is one that the receiver has by then, the run keeps the key's book: it hands up what was submitted, in order from the first SDU
/// on, confirms no more than was handed up, and has handed up and confirmed all behind a drain that is answered `ok`.
pub fn an_honest_run_keeps_the_book()
    ensures lines { HonestRunKeepsBook }
    ensures runs { HonestRunsKeepBook }
{}
