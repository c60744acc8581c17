//! Opens the bytes that were read, or reads a part of them.
ghost use Rattle.std.specs.Prelude.{◌≡◌, ◌≤◌, IfErr, IfOk, IsErrOf, IsOk, Option};
ghost use Rattle.cli_header.specs.declared.header.CliHeader.{CliHeader as Header};
ghost use Rattle.cli_files.specs.Checked.{IsModelOf, IsOpened, IsSpentOf, IsWhole, rules_before, rules_of, source_in};
ghost use Rattle.cli_files.specs.Heads.{AreHeads, SameHeads, rules_of_heads};
ghost use Rattle.metadata.specs.Metadata.{Metadata};
ghost use Rattle.metadata.specs.Model.{IsModel};
ghost use Rattle.metadata.specs.Source.{rows_in};
ghost use Rattle.metadata.specs.Streams.{root_in};
ghost use Rattle.opening.specs.Heads.{IsWithin};
ghost use Rattle.opening.specs.Views.{HasModel};
ghost use Rattle.opening.specs.Within.{ReportsFirst};
ghost use Rattle.packed.specs.Rule.{FirstBroken, Reports};
ghost use Rattle.root.specs.Streams.{RootRead};
ghost use Rattle.table_schema.specs.declared.table.TableId.{TableId as Table};

use cli_header::CliHeader;
use opening::{
    BoundedError, Source, View, open_image, open_image_within, open_root, open_root_within,
    read_heads, read_source_of_image, read_source_of_root,
};
use packed::Fault;
use root::{Root, read_root};

/// What the bytes are.
#[derive(Clone, Copy, PartialEq, Eq)]
pub enum Input {
    /// A PE file with metadata (II.25).
    File,
    /// A metadata root alone (II.24.2), as `--bare` says.
    BareRoot,
}

/// Opens the metadata of the bytes. It does not allocate.
///
/// # Errors
///
/// The fault of the first rule that fails, with its offset in these bytes.
pub fn open(bytes: &[u8], input: Input) -> Result<View<'_>, Fault>
    ensures sound { IfOk result (λ _. IsWhole input bytes.now) }
    ensures root { IfOk result (λ view. IsOpened input bytes.now view) }
    ensures model { IfOk result (λ view. HasModel view) }
    // The one model of the bytes is that of the view's root.
    ensures models { IfOk result (λ view. (model : Metadata) → IsModelOf input bytes.now model → IsModel view model) }
    ensures complete { IsWhole input bytes.now → IsOk result }
    ensures first_error { IfErr result (FirstBroken (rules_of input bytes.now)) }
{
    match input {
        Input::BareRoot => open_root(bytes),
        Input::File => {
            let (_, view) = open_image(bytes)?;
            Ok(view)
        }
    }
}

/// Opens the metadata of the bytes as [`open`] does. It checks at most `budget` bytes of texts and of signature blobs
/// (II.24.2.3, II.23.2).
///
/// # Errors
///
/// The fault of the first rule that fails, or `BudgetSpent` if more bytes must be checked.
pub fn open_within(bytes: &[u8], input: Input, budget: u64) -> Result<View<'_>, BoundedError>
    ensures sound { IfOk result (λ _. IsWhole input bytes.now) }
    ensures first_error { IfErr result (ReportsFirst (rules_of input bytes.now)) }
    ensures spent { IsErrOf result BoundedError.BudgetSpent → IsSpentOf budget input bytes.now }
{
    match input {
        Input::BareRoot => open_root_within(bytes, budget),
        Input::File => {
            let (_, view) = open_image_within(bytes, budget)?;
            Ok(view)
        }
    }
}

/// The CLI header, which a bare root does not have, and the metadata root.
///
/// # Errors
///
/// The fault of the first rule that fails.
#[tactic(auto, unfolding(crate::specs::Heads::rules_of_heads))]
pub fn heads_of(bytes: &[u8], input: Input) -> Result<(Option<CliHeader>, Root<'_>), Fault>
    ensures sound { IfOk result (λ heads. AreHeads input bytes.now heads.0 heads.1) }
    ensures one { IfOk result (λ heads. (header : Option Header) (root : RootRead) → AreHeads input bytes.now header root
        → SameHeads heads.0 heads.1 header root) }
    ensures first_error { IfErr result (FirstBroken (rules_of_heads input bytes.now)) }
{
    match input {
        Input::BareRoot => Ok((None, read_root(bytes)?)),
        Input::File => {
            pe::laws::images_are_read();
            cli_header::laws::headers_are_read();
            root::laws::roots_are_read();
            let heads = read_heads(bytes)?;
            Ok((Some(heads.header), heads.root))
        }
    }
}

/// The metadata root that a CLI header names (II.25.3.3).
pub fn root_of<'a>(file: &'a [u8], header: &CliHeader) -> &'a [u8]
    requires { IsWithin header.now file.now }
    ensures { result.now ≡ root_in file.now header.now }
{
    &file[header.root.start..header.root.end]
}

/// The rows and heaps of the bytes. The rules for cells and those after them are not checked.
///
/// # Errors
///
/// The fault of the first rule before those for cells that fails.
pub fn rows_of(bytes: &[u8], input: Input) -> Result<Source<'_>, Fault>
    ensures reports { Reports (rules_before input bytes.now) result }
    ensures source { IfOk result (λ source. source ≡ source_in input bytes.now) }
    ensures few { IfOk result (λ source. (table : Table) → rows_in source.source table ≤ 0xFFFFFF) }
{
    match input {
        Input::BareRoot => read_source_of_root(bytes),
        Input::File => read_source_of_image(bytes),
    }
}
