// What is true of every answer.
#![tactic(auto)]

ghost use Rattle.report_laws.specs.Laws.{OneOutcome, OneLine, OneTranscript, FewRefusals, SameDigit};

// What is promised of an answer leaves one answer to each text, line and input.
pub fn answers_are_one()
    ensures text { OneOutcome }
    ensures line { OneLine }
    ensures input { OneTranscript }
{}

// A text is refused by nine numbers only.
pub fn refusals_are_few()
    ensures { FewRefusals }
{}

// Products that are alike get the same digit.
pub fn digits_are_same()
    ensures { SameDigit }
{}
