// What is true of every check.
ghost use Rattle.checker.specs.CheckLaw.{OneChecked};

use product_sets::Kind;

// The answer of a check is one, whatever the kind and the cells.
pub fn checks_hold<K: Kind, L: Kind>()
    ensures { OneChecked K.means K.places L.means L.places }
{}
