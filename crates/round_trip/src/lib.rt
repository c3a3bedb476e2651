// Laws, in specs/: a byte string is accepted exactly when it is the text of a sheet in range, and the sheet that is
// read has that text.
#![tactic(auto)]
