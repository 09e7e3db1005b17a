// What is true of every table that the reader gives.
#![tactic(auto)]

ghost use Rattle.reader_laws.specs.Results.{TablesHold, RulesKept, OneAnswer};

// An accepted text's tables stand for its formula, keep the form of formula tables, and keep the rules by which tables
// are judged but for those on variables.
pub fn tables_hold()
    ensures stand { TablesHold }
    ensures ruled { RulesKept }
{}

// What reading promises leaves one answer, and one outcome of both tables, for all that is handed in.
pub fn answer_is_one()
    ensures { OneAnswer }
{}
