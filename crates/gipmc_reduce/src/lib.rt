//! Circuits made of a circuit before a search, and what is shown of the whole by such a one: smaller circuits, by the
//! cone of influence of some literals and by signal correspondence, and longer ones, whose safety shows liveness, by
//! k-liveness and by liveness to safety.
#![tactic(auto)]

pub mod certificate;
pub mod cone;
pub mod correspondence;
pub mod k_liveness;
pub mod lasso;
pub mod liveness_to_safety;
pub mod means;
pub mod witnessed;

pub use certificate::certify_all;
pub use cone::{Cone, Names};
pub use correspondence::{Bounds, Correspondence, Merges};
pub use k_liveness::counting;
pub use lasso::{Lasso, closed, replay_lasso};
pub use liveness_to_safety::{lasso_of, to_safety};
pub use means::{Means, certify_live, longer};
pub use witnessed::certify_all_by;
