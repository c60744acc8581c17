ghost use Rattle.std.specs.Prelude.{ℕ, ◌^◌, ◌<◌, List, slice_index};
ghost use Rattle.metadata.specs.Metadata.{Metadata};
ghost use Rattle.metadata.specs.Model.{IsModel};
ghost use Rattle.embedding.specs.declared.strong_name.StrongName.{StrongName as Name};
ghost use Rattle.embedding.specs.Embedded.{IsEmbedded, HasItsModel};

/// A file with another root has the model of that root.
pub fn embedded_roots_are_found()
    ensures { (strong_name : Name) (file root result : List ℕ) (model : Metadata)
        → ((k : ℕ) → slice_index file k < 2 ^ 8) → IsEmbedded strong_name file root result → IsModel root model
        → HasItsModel strong_name file root result model }
{
    packed::laws::fields_are_parts();
    pe::laws::images_are_read();
    cli_header::laws::headers_are_read();
    metadata::laws::models_are_read();
}
