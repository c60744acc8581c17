//! What the bytes of a PE file are used for (ECMA-335 II.25).
//!
//! [`Headers`] reads the fields of the PE headers that a writer of a file has to follow, the data directories and the
//! section headers. [`is_free`] says whether the range of the metadata has nothing else in it: no header, no directory, no
//! method body and no data of a field that a row names. Nothing here allocates. The time is linear in the rows and
//! their bodies, and logarithmic in ClassLayout for each field with data.
//!
//! ```text
//! let headers = Headers::read(&file);  // of a file that is an image
//! headers.field(Field::ImageSize)      // 0x8000
//! is_free(&headers, &header, &source)  // true: the metadata can be replaced
//! ```
//!
//! The managed resources of a file (ECMA-335 II.22.24 and II.25.3.3): where each is, and its content.
//!
//! [`directory_of`] finds the resources directory, to which the CLI header refers. [`location_of`] says of a row of
//! ManifestResource where its resource is: in this directory, or in another file or assembly. [`find_resource`] finds the
//! first row with a name, and [`resource_at`] the one that contains a byte of the file. Nothing here allocates.
//!
//! ```text
//! let directory = directory_of(&file, &header);
//! let row = find_resource(&view, "notes.txt")?;
//! match location_of(directory, &view, row)? {
//!     Location::Here(content) => content.bytes,      // the file has them at content.offset
//!     Location::Elsewhere(token) => ..,              // a row of File, AssemblyRef or ExportedType
//! }
//! ```
#![tactic(auto)]

mod addresses;
mod alignment;
mod bodies;
mod class_sizes;
mod directory;
mod field;
mod field_data;
mod headers;
mod location;
mod look_ups;
mod occupied;
mod section;

pub use alignment::aligned;
pub use bodies::body_end;
pub use cli_header::DataDirectory;
pub use directory::{Content, Directory, directory_of};
pub use field::Field;
pub use headers::{Headers, SECTION_HEADER};
pub use location::{Location, NotWithin, location_of};
pub use look_ups::{find_resource, resource_at};
pub use occupied::is_free;
pub use opening::{CliHeader, Source, TableId, Token, View};
pub use section::Section;
