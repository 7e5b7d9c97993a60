//! Which name of a version sheet each head byte obeys (docs/FORMAT.md, "Head bytes").
//!
//! Who edits a sheet sees here what each byte means where a reference is read, and which bytes more
//! than one name lays hold of. It goes by the table of `heads`, from which the walk's meanings are
//! made too.
#![tactic(auto)]

pub mod inspect;
