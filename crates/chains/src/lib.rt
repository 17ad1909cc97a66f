// No code: this crate says what a list of calls of `device::access` and `registers::register_access` gets, and how rule 3 reaches it.
#![tactic(auto)]
