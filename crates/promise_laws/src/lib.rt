//! Which promises of a script the full journal keeps. Laws alone, and no code that runs.
//!
//! `specs/Waited.antt` says for which promises a script has waited. In `proofs/`, `Steps` and `Commits` say what steps
//! add to a trace, and how many commits of it a set has; `Chains`, that these are the first ones. `Shows` and `Frames`
//! say that what a path shows depends on the bytes of its ranges alone; so an operation that meets none of them changes
//! nothing (`Fsynced`), nor does one that does not touch the path (`Lasting`). `Recovered` says what paths show on
//! the image of a set after replay, and `Rests` that a line `keep` allows it. `Kept` and `Lines` put this together.
#![tactic(auto)]

pub mod laws;
