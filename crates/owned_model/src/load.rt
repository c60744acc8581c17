ghost use Rattle.std.specs.Prelude.{◌≡◌, IfOk, IfErr};
ghost use Rattle.cli_header.specs.declared.header.CliHeader.{CliHeader as Header};
ghost use Rattle.metadata.specs.Metadata.{Metadata};
ghost use Rattle.metadata.specs.Model.{IsModel, IsModelOfFile};
ghost use Rattle.metadata.specs.Rules.{rules_of_metadata, rules_of_file};
ghost use Rattle.opening.specs.Views.{HasModel};
ghost use Rattle.owned_model.specs.Refused.{IsRefused, HasHeaderAndModel};

use crate::error::LoadError;
use crate::to_model::ToModel;
use crate::valid_model::Model;
use opening::{CliHeader, open_image, open_root};
use std::alloc::Global;

/// Loads the metadata root in these bytes (II.24.2). Except if it is out of memory, it succeeds if and only if the
/// root has a model.
///
/// # Errors
///
/// A fault is the fault that [`open_root`](opening::open_root) returns. It is found without allocation. `Memory` is
/// returned only for bytes that have a model.
pub fn load_root(alloc: Global, root: &[u8]) -> Result<Model, LoadError>
    // The loaded model is a model of the root.
    ensures sound { IfOk result (λ loaded. ∥ IsModel root.now loaded ∥₁) }
    // Each model of the root equals the loaded model.
    ensures complete { (model : Metadata) → IsModel root.now model → IfOk result (λ loaded. loaded ≡ model) }
    // A fault is the first broken rule, and then there is no model. It is out of memory only if there is a model.
    ensures refused { IfErr result (IsRefused (rules_of_metadata 0 root.now) (HasModel root.now)) }
{
    let view = open_root(root)?;
    Ok(view.model(alloc)?)
}

/// Loads the file in these bytes (II.25), with its CLI header. Except if it is out of memory, it succeeds if and
/// only if the file has a header and a model.
///
/// # Errors
///
/// A fault is the fault that [`open_image`](opening::open_image) returns. It is found without allocation. `Memory`
/// is returned only for bytes that have a model.
pub fn load_image(alloc: Global, file: &[u8]) -> Result<(CliHeader, Model), LoadError>
    // The loaded header and model are those of the file.
    ensures sound { IfOk result (λ loaded. ∥ IsModelOfFile file.now loaded.0 loaded.1 ∥₁) }
    // Each header and model of the file equal the loaded ones.
    ensures complete { (header : Header) (model : Metadata) → IsModelOfFile file.now header model
        → IfOk result (λ loaded. (loaded.0 ≡ header) × (loaded.1 ≡ model)) }
    // A fault is the first broken rule, and then there is no model. It is out of memory only if there is a model.
    ensures refused { IfErr result (IsRefused (rules_of_file file.now) (HasHeaderAndModel file.now)) }
{
    let (header, view) = open_image(file)?;
    Ok((header, view.model(alloc)?))
}
