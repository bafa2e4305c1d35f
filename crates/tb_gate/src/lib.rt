//! Promises of the language, the machine, the compiler and the engines, once more and in one place. The functions only
//! hand a call on, each with the clauses of the call's contract, or state a theorem by itself. If the call came to
//! promise less, the function here would fail; `tools/compare/restated.py` compares them. No program uses these
//! functions.
//!
//! Here the gate tries the named wrong bodies, in `must-fail/`: what refuses them is the promise alone, and no body's
//! proof. `compile` promises the exact bytes as well, and these alone would refuse any other program. That the
//! theorems refuse one too is seen here: `following_lists` asks for the theorem of `lower` alone, and `source_kept`
//! for those of `compile`. All other wrong bodies stand beside the functions that they change.
#![tactic(auto)]

mod language;
mod machine;
mod programs;
