// Worked cases: what is answered to formula texts over a family of four products, from the bytes of its file on.
#![tactic(auto)]

ghost use Rattle.cases.specs.Cases.{FilesHold, CasesHold};

// Six texts give their digits, one of them over two families, and three are refused with their number and value: in
// a book of the four states that the family has, and in one of 64 as vatcheck opens it.
pub fn worked_cases_hold()
    ensures files { FilesHold 4 × FilesHold 64 }
    ensures cases { CasesHold 4 }
    ensures cases_of_64 { CasesHold 64 }
{}
