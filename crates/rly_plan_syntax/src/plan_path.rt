use std::alloc::{AllocError, Global};
use std::marker::Model;

/// The path of a link's key file or folder, as the plan names it: relative to the plan's own folder, unless absolute.
/// It is checked only when the file or folder is opened.
#[derive(Drop)]
pub struct PlanPath {
    path: String,
}

impl Model for PlanPath {
    ghost use Rattle.std.specs.Prelude.{ℕ, List, string_bytes};

    ghost Value = { List ℕ };

    ghost view = { λ p. string_bytes p.path };
}

impl PlanPath {
    ghost use Rattle.std.specs.Prelude.{◌≡◌, IfOk};

    pub(crate) fn copy(alloc: Global, path: &str) -> Result<PlanPath, AllocError>
        ensures { IfOk result (λ copy. copy ≡ path.now) }
    {
        Ok(PlanPath {
            path: String::from_str(alloc, path)?,
        })
    }

    /// The path, as the plan writes it.
    pub fn path(&self) -> &str
        ensures { result.now ≡ self.now }
    {
        self.path.as_str()
    }
}
