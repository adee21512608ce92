// The reader of objects: rules L1 to L7 as definitions that do not know the writer. It has no code: so far nothing asks to read an object.
#![tactic(auto)]
