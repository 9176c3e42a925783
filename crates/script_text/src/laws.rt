// What holds of the grammar and of texts alone.
ghost use Rattle.script_text.specs.Lines.{OneLineIsSpelt};
ghost use Rattle.script_text.specs.Grammar.{OneAnswerIsParsed, SpeltIsRead, TextIsReadBack, TextIsSpelt};
ghost use Rattle.script_text.specs.Told.{OneAnswerIsTold, OneEventIsTold, OneHistoryIsTold, OneReplyIsTold};

/// A law: words spell at most one line.
pub fn one_line_is_spelt()
    ensures { OneLineIsSpelt }
{}

/// A law: but for want of memory, a text has one answer at a stage and leaves one stage: it is skipped, or spells one
/// line, or is bad for one reason.
pub fn one_answer_is_parsed()
    ensures { OneAnswerIsParsed }
{}

/// A law: what some words spell is spelt by the line's own text, and a line that is read from some text at a stage is
/// read from its own text there as well, to the same stage.
pub fn text_is_read_back()
    ensures spelt { TextIsSpelt }
    ensures read { TextIsReadBack }
{}

/// A law: a text of at most 65,536 bytes that spells a line which may stand at a stage is read as that line.
pub fn what_is_spelt_is_read()
    ensures { SpeltIsRead }
{}

/// A law: the text of a reply tells it, but for `bad short`, which an AMD PDU and a STATUS PDU may be; and so do the
/// texts of an event, and of an answer.
pub fn one_answer_is_told()
    ensures reply { OneReplyIsTold }
    ensures event { OneEventIsTold }
    ensures answer { OneAnswerIsTold }
{}

/// A law: with its lines given, a trace tells the events and the reply of each line that prints them.
pub fn one_history_is_told()
    ensures { OneHistoryIsTold }
{}
