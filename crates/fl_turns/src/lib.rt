//! What the lines of a script do, one after another: definitions, and lemmas that join the lines to
//! one run, which the program and the laws of scripts share.
#![tactic(auto)]
