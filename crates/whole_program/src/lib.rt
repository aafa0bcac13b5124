//! What sources mean together, and the law that what their objects are linked to means it.
#![tactic(auto)]

ghost use Rattle.whole_program.specs.Law.{LinkKeepsMeaning};

use simulation::law as keeps_meaning;

/// Where objects of sources are linked, each compiled with whatever interface texts, each source is the same module under these texts as under the interfaces that the sources have now; and the linked text prints and ends as the sources do together by their plain meaning, in whatever order they stand, for every input, arguments and number of turns.
pub fn law()
    ensures { LinkKeepsMeaning }
{
    keeps_meaning();
}
