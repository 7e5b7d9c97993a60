//! The examples of docs/FORMAT.md ("Examples") as a law of the definition: specs/Cases.antt has the
//! tables.
ghost use Rattle.definition.specs.Cases.{CasesHold, FurtherCasesHold, EventsHold};

/// Each payload of the examples a to l gives the outcome and the records that the table says, and
/// so do the further ones, which rule out plausible misreadings; and one reading tells the events
/// that are listed. The law is the contract; there is nothing to run.
#[tactic(auto, using(crate::specs::Cases::cases_hold, crate::specs::Cases::further_hold, crate::specs::Cases::told_holds))]
pub fn examples()
    ensures cases { CasesHold }
    ensures further_cases { FurtherCasesHold }
    ensures events { EventsHold }
{}
