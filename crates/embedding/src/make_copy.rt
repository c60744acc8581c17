ghost use Rattle.std.specs.Prelude.{◌≡◌, ◌<◌, ◌⊎◌, length, IfOk, IfErr};
ghost use Rattle.packed.specs.Rule.{FirstBroken};
ghost use Rattle.cli_header.specs.declared.header.CliHeader.{CliHeader as Header};
ghost use Rattle.metadata.specs.Metadata.{Metadata};
ghost use Rattle.metadata.specs.Model.{IsModel, IsModelOfFile};
ghost use Rattle.metadata.specs.Rules.{rules_of_file, rules_of_metadata};
ghost use Rattle.root_writer.specs.Canonical.{canonical};
ghost use Rattle.embedding.specs.Embedded.{IsEmbedded, HasItsModel};
ghost use Rattle.packed.specs.Limit.{byte_limit};
ghost use Rattle.embedding.specs.declared.error.EmbedError.TheVariants.{Memory, TooLong};
ghost use Rattle.embedding.specs.Errors.{IsReason, MatchFault};

use crate::error::EmbedError;
use crate::laws;
use crate::plan::{open_file, plan_embedding, plan_opened};
use crate::strong_name::StrongName;
use std::alloc::Global;
use writer::{WriteError, prepare};

/// The largest length of a root in bytes.
const ROOT_LIMIT: u32 = 1 << 30;

/// A copy of a file with another root, which must lead into the file (II.25).
///
/// # Errors
///
/// Why the root cannot be put into the file, or that memory ran out.
pub fn embed(
    alloc: Global,
    file: &[u8],
    root: &[u8],
    strong_name: StrongName,
) -> Result<Vec<u8>, EmbedError>
    // The result is the file with this root in the place of its own.
    ensures sound { IfOk result (λ bytes. IsEmbedded strong_name file.now root.now bytes.items) }
    // It has the model of the root, and the CLI header of the file but for the metadata and the strong name.
    ensures model { (model : Metadata) → IsModel root.now model → IfOk result (λ bytes. HasItsModel strong_name file.now root.now bytes.items model) }
    // A fault is that of the first rule that the file or the root breaks.
    ensures first_error { IfErr result (MatchFault (FirstBroken (rules_of_file file.now)) (FirstBroken (rules_of_metadata 0 root.now))) }
    // Any other reason is true of both, or memory ran out.
    ensures refused { IfErr result (λ error. (error ≡ Memory) ⊎ IsReason file.now root.now error) }
{
    laws::embedded_roots_are_found();
    let plan = plan_embedding(file, root, strong_name)?;
    Ok(plan.make(alloc)?)
}

/// A copy of a file with its canonical root (II.25, II.24.2).
///
/// # Errors
///
/// Why the root cannot be put into the file, or that memory ran out.
pub fn embed_canonical(
    alloc: Global,
    file: &[u8],
    strong_name: StrongName,
) -> Result<Vec<u8>, EmbedError>
    // The result is the file with the canonical root of its model in the place of its own.
    ensures sound { (header : Header) (model : Metadata) → IsModelOfFile file.now header model
        → IfOk result (λ bytes. IsEmbedded strong_name file.now (canonical model) bytes.items) }
    // It has the same model.
    ensures model { (header : Header) (model : Metadata) → IsModelOfFile file.now header model
        → IfOk result (λ bytes. HasItsModel strong_name file.now (canonical model) bytes.items model) }
    // A fault is that of the first rule that the file breaks.
    ensures first_error { IfErr result (MatchFault (FirstBroken (rules_of_file file.now)) (λ _. ⊥)) }
    // Any other reason is true of the file and this root, or the root is too long, or memory ran out.
    ensures refused { (header : Header) (model : Metadata) → IsModelOfFile file.now header model
        → IfErr result (λ error. (error ≡ Memory) ⊎ ((error ≡ TooLong) × (byte_limit < length (canonical model))) ⊎ IsReason file.now (canonical model) error) }
{
    laws::embedded_roots_are_found();
    metadata::laws::models_are_read();
    metadata::laws::models_of_roots_are_valid();
    root_writer::laws::canonical_root_has_its_model();
    let opened = open_file(file)?;
    let root = match prepare(alloc, &opened.view, ROOT_LIMIT) {
        Ok(root) => root,
        Err(WriteError::TooLarge) => return Err(EmbedError::TooLong),
        Err(_) => return Err(EmbedError::Memory),
    };
    let plan = plan_opened(opened, root.bytes(), strong_name)?;
    Ok(plan.make(alloc)?)
}
