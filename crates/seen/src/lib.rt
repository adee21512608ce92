// What a loader finds in the object of a job: the definition is in specs/Seen.antt.
#![tactic(auto)]
