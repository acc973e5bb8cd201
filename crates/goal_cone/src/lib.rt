//! The cone of a goal: the facts on which its proof may rest.
//!
//! The premises of a fact are the facts, of the same user, that its rule reads from the stored tuples at a timestamp.
//! The cone of a goal is the least list that holds the goal and the declared premises of each of its facts. Contracts
//! say so as `IsCone`: the list holds them, and each of its facts lies in every list that does.
//!
//! Callers may rely on this: [`explore`] answers the cone, each fact once, and refuses only a goal for which every such
//! list of facts has more than [`MAX_USERSETS`] facts or reads more than [`MAX_LINKS`] stored usersets. [`targets`]
//! gives what relations give through a tupleset, all that is declared of it and nothing that is not stored
//! (`AreTargets`), where it is given the namespaces that declare them; [`Leaves`] notes these with each part of a rule
//! (`IsNoted`).
//!
//! [`Search`] goes forward from a goal up to what settles it, and gives the facts on which that rests, in their order,
//! or gives up past the bounds of a cone. Nothing is promised of it, but that each call comes to an end.
//!
//! What a call costs is no promise. To find a cone, and to search, recurs over rules alone, never over facts. The
//! memory is that of the cone, or of what was searched, and a look-up among facts goes by their marks. What is stored
//! in a tupleset is gone over once for all relations that a rule of a cone reads through it, and where many usersets
//! were stored there, what is dead or declares none of them is not. [`Leaves`] and [`WideRules`] keep what was read of
//! rules, and which of their parts open them, for the next goals.
//!
//! ```text
//! let mut leaves = Leaves::new(alloc, snapshot.timeline.rules());
//! let cone = explore_by(alloc, &mut leaves, &snapshot, &entry.goal)?;
//! ```
#![tactic(auto)]

mod cone;
mod fault;
mod groups;
mod kept;
mod leaves;
mod needed;
mod nodes;
mod premises;
mod runs;
mod search;
mod seen;
mod through;
mod walks;
mod wide;

pub use cone::{explore, explore_by};
pub use fault::ConeFault;
pub use kept::WideRules;
pub use leaves::{Leaves, ReadPart};
pub use needed::Settled;
pub use premises::{MAX_LINKS, MAX_USERSETS};
pub use search::Search;
pub use through::targets;
