// No code: what holds of rounded operations on doubles, in whole numbers of units. See specs/.
#![tactic(auto)]
