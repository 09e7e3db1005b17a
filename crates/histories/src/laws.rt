// The laws of the plain ledger.
ghost use Rattle.histories.specs.Ledger.{LoadsAreWhole};

/// A load comes into the ledger whole or not at all.
pub fn loads_are_whole()
    ensures { LoadsAreWhole }
{}
