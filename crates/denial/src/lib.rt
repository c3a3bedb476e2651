// Denials of a plan: boxes of starts and instances, trees that cut them down, and when a tree passes. Definitions and
// laws alone, in specs/: a tree that passes means that no plan exists, and where none exists some tree passes.
#![tactic(auto)]
