// The numbers of the touch record: what a test gives to the world points is within their range, and the normal of a
// built outline against a circle is near unit (proofs/). No functions.

#![tactic(auto)]
