//! Syntax of a contact plan: reads the keys and values of its TOML text into a `PlanDraft`, whose
//! numbers `rly_plan` then checks. `keys_are_known` and `PlanDraft::read` are passes 2 and 3
//! (`specs/Keys.antt`, `specs/Draft.antt`; `docs/FORMATS.md`, "The plan"); `unknown_place`,
//! `missing_place` and `position_after` locate the first fault (`specs/DocumentPaths.antt`) as a
//! `KeyPath`, which displays as the path of a key. Callers: `rly_plan`, `rly_plan_show`.
#![tactic(auto)]

mod addresses;
mod document_paths;
mod draft;
mod far_end;
mod key_path;
mod keys;
mod plan_path;
mod position;
mod route;

pub use crate::addresses::Addresses;
pub use crate::document_paths::{missing_place, unknown_place};
pub use crate::draft::{ContactDraft, HopDraft, NeighbourDraft, PlanDraft, read_contact, value_at};
pub use crate::far_end::{FarEndDraft, FolderDraft, SocketEnd};
pub use crate::key_path::{KeyPath, PlanKey, Position, Row, Spot};
pub use crate::keys::keys_are_known;
pub use crate::plan_path::PlanPath;
pub use crate::position::position_after;
pub use crate::route::{DestinationDraft, RouteDraft};
