// No code: the lines that were measured on the bench and are to be proved, as one list. See specs/promises/Measured.antt.
#![tactic(auto)]
