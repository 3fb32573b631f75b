// Closed cases of the touch record (proofs/): heats of outlines and of walls, line by line, and calls of the export,
// computed by antt. They stand apart from the definitions because they are long to compute. No functions.

#![tactic(auto)]
