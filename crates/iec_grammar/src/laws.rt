// Laws of readings: each is the contract of a function that does nothing.

ghost use Rattle.std.specs.Prelude.{◌≡◌, List, None};
ghost use Rattle.iec_grammar.specs.Reading.{opening, run};
ghost use Rattle.iec_grammar.specs.Readings.{BeginsText};
ghost use Rattle.iec_tokens.specs.declared.token.Placed.{Placed};

/// Tokens that begin a text of the grammar stop no reader: where one stops, no text goes on.
pub fn faults_are_final()
    ensures { (front : List Placed) → BeginsText front → (run opening front).refused ≡ None }
{}
