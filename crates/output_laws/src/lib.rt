//! What a longer script leaves as it was, where a script is printed and not run.
//!
//! It stands on `gvdl_printer`, whose canonical text a check prints, and on `gvdl_check`, which says what it is to continue a
//! script. Of a script that is run the law is `keeps_texts` of `surge_session`. Its one function has no code: its contract is
//! the law (`specs/Laws`). No room stands on it.
#![tactic(auto)]

pub mod laws;
