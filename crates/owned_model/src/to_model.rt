ghost use Rattle.std.specs.Prelude.{◌≡◌, IfOk};
ghost use Rattle.metadata.specs.Metadata.{Metadata};
ghost use Rattle.metadata.specs.Model.{IsModel};
ghost use Rattle.metadata.specs.Valid.{IsValid};
ghost use Rattle.owned_model.specs.Models.{ReportsOrder};

use crate::table_rows::load_tables;
use crate::valid_model::Model;
use heap_entries::copy_padded;
use opening::View;
use std::alloc::{AllocError, Global};
use tables::Tables;

/// The tables of the one model of a view's metadata root. They are valid.
fn tables_of(alloc: Global, view: &View) -> Result<Tables, AllocError>
    ensures model { (model : Metadata) → IsModel view.now model → IfOk result (λ tables. tables ≡ model) }
    ensures valid { IfOk result (λ tables. ∥ IsValid tables ∥₁) }
{
    metadata::laws::models_are_read();
    metadata::laws::models_of_roots_are_valid();
    // The root has a model.
    let _root = view.root();
    let mut tables = Tables::new(alloc, view.version())?;
    tables.set_user(copy_padded(alloc, view.user())?);
    load_tables(alloc, view, &mut tables)?;
    Ok(tables)
}

/// Whether each table with a key is in order of it, by table number, as opening found it.
fn order_of(view: &View, tables: &Tables) -> [bool; 45]
    requires { (model : Metadata) → IsModel view.now model → tables.now ≡ model }
    ensures { ReportsOrder tables.now result }
{
    metadata::laws::keys_are_in_order();
    // The root has a model.
    let _root = view.root();
    view.found().in_order
}

/// A value that can be converted to a model.
pub trait ToModel {
    ghost use Rattle.std.specs.Prelude.{◌≡◌, IfOk};
    ghost use Rattle.metadata.specs.Metadata.{Metadata};

    ghost has_model: { Self → Metadata → Type 0 };

    /// The one model, which owns its content. The only error is out of memory.
    fn model(&self, alloc: Global) -> Result<Model, AllocError>
        ensures { (model : Metadata) → has_model self.now model → IfOk result (λ loaded. loaded ≡ model) };
}

impl ToModel for View<'_> {
    ghost use Rattle.metadata.specs.Model.{IsModel};

    ghost has_model = { λ view model. IsModel view model };

    /// The one model of the root, which owns its content. The only error is out of memory.
    ///
    /// Nothing is checked again. The cost is linear in the size of the root, and in the sizes of the strings and blobs,
    /// once for each cell.
    fn model(&self, alloc: Global) -> Result<Model, AllocError>
        ensures model { (model : Metadata) → IsModel self.now model → IfOk result (λ loaded. loaded ≡ model) }
        ensures sound { IfOk result (λ loaded. ∥ IsModel self.now loaded ∥₁) }
    {
        // The root has a model.
        let _root = self.root();
        let tables = tables_of(alloc, self)?;
        let in_order = order_of(self, &tables);
        Ok(Model::of_valid(tables, in_order))
    }
}
