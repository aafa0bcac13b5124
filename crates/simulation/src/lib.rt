//! The law that ties the two meanings: the translated units of a program's modules, linked, mean what the modules mean.
#![tactic(auto)]

ghost use Rattle.simulation.specs.Law.{KeepsMeaning};

/// A linked program of translated units breaks no rule, can be run, has a spelling, and prints and ends as the plain meaning of its modules says, for every input, arguments and number of turns.
pub fn law()
    ensures { KeepsMeaning }
{}
