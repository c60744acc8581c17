//! The bytes of the result, part by part.
ghost use Rattle.std.specs.Prelude.{◌≡◌, ◌+◌, ◌≤◌, length, take};
ghost use Rattle.file_ranges.specs.Fields.{headers_end};
ghost use Rattle.embedding.specs.Bytes.{changed, with_bytes};
ghost use Rattle.embedding.specs.Embedded.{copied, strong_name_changes, certificate_changes, with_checksum};
ghost use Rattle.embedding.specs.Slots.{HasRoom, IsInRange, image_size, root_bytes, slot_changes, appended_changes, extended_changes, metadata_changes, section_header};
ghost use Rattle.embedding.specs.Planned.{target_in, result_of};

use crate::change::{checksum, put_bytes, put_number};
use crate::plan::EmbedPlan;
use crate::slot::Slot;
use crate::strong_name::StrongName;
use file_ranges::{Field, aligned};
use packed::u16_at;

/// The flag of an image with a strong name (II.25.3.3.1).
const STRONG_NAME: u32 = 8;

/// One section, in the number that has Number of Sections in its two higher bytes (II.25.2.2).
const ONE_SECTION: u32 = 0x10000;

/// The first four bytes of the name of the section: `.cli`.
const NAME: u32 = 0x696C_632E;

/// The other bytes of its name: `m`.
const NAME_END: u32 = 0x6D;

/// Characteristics of the section: initialized data that is read (II.25.3).
const READ_DATA: u32 = 0x4000_0040;

impl<'a> EmbedPlan<'a> {
    /// Writes what changes over the bytes of the file that stay.
    pub(crate) fn put_changes(&self, out: &mut [u8])
        requires long { length out.old ≡ (target_in self.now).len }
        requires copied { out.old ≡ copied self.now.file (target_in self.now) }
        ensures { out.new ≡ result_of self.now }
    {
        self.put_slot(out);
        self.put_metadata(out);
        self.put_strong_name(out);
        self.put_certificate(out);
        self.put_root(out);
        self.put_checksum(out);
    }

    /// Copies the bytes of the file that stay, and fills up with zeros.
    pub(crate) fn copy_file(&self, out: &mut [u8])
        requires { length out.old ≡ (target_in self.now).len }
        ensures { out.new ≡ copied self.now.file (target_in self.now) }
    {
        let kept = self.target.kept as usize;
        let (bytes, _) = self.headers.file().split_at(kept);
        out[..kept].copy_from_slice(bytes);
        out[kept..].fill(0);
    }

    /// The bytes of the file that stay.
    pub(crate) fn kept(&self) -> &[u8]
        ensures bytes { result.now ≡ take (target_in self.now).kept self.now.file }
        ensures length { length result.now ≡ (target_in self.now).kept }
        ensures whole { length (result_of self.now) ≡ (target_in self.now).len }
        ensures within { (target_in self.now).kept ≤ (target_in self.now).len }
    {
        let (bytes, _) = self.headers.file().split_at(self.target.kept as usize);
        bytes
    }

    /// Changes the PE headers for the slot of the root (II.25.2, II.25.3).
    fn put_slot(&self, out: &mut [u8])
        requires { length out.old ≡ (target_in self.now).len }
        ensures { out.new ≡ changed (slot_changes self.now.file (length self.now.root) self.now.slot (target_in self.now)) out.old }
    {
        match self.slot {
            Slot::Reused => {}
            Slot::Appended {
                address: _,
                offset: _,
            } => self.put_appended(out),
            Slot::Extended { within } => self.put_extended(out, within),
        }
    }

    /// Changes the PE headers for one more section.
    fn put_appended(&self, out: &mut [u8])
        requires room { HasRoom self.now.file self.now.header }
        requires range { IsInRange self.now.file (length self.now.root) (target_in self.now) }
        requires len { length self.now.file ≤ length out.old }
        ensures { out.new ≡ changed (appended_changes self.now.file (length self.now.root) (target_in self.now)) out.old }
    {
        let headers = &self.headers;
        let offset = headers.field_offset(Field::Machine);
        let machine = u16_at(headers.file(), offset) as u32;
        let count = headers.section_count() as u32 + 1;
        put_number(out, offset, machine + ONE_SECTION * count);
        let size = headers.field(Field::InitializedDataSize) + self.target.raw_size as u32;
        put_number(out, headers.field_offset(Field::InitializedDataSize), size);
        put_number(
            out,
            headers.field_offset(Field::ImageSize),
            self.image_size(),
        );
        self.put_section(out);
    }

    /// Image Size, as the image ends with the root (II.25.2.3.2).
    fn image_size(&self) -> u32
        requires { IsInRange self.now.file (length self.now.root) (target_in self.now) }
        ensures { result ≡ image_size self.now.file (length self.now.root) (target_in self.now) }
    {
        let end = self.target.address + self.root.len() as u64;
        aligned(self.headers.field(Field::SectionAlignment), end) as u32
    }

    /// Writes the header of the new section (II.25.3).
    fn put_section(&self, out: &mut [u8])
        requires room { headers_end self.now.file + 40 ≤ length out.old }
        requires range { IsInRange self.now.file (length self.now.root) (target_in self.now) }
        ensures { out.new ≡ changed (section_header (headers_end self.now.file) (length self.now.root) (target_in self.now)) out.old }
    {
        let header = self.headers.headers_end();
        put_number(out, header, NAME);
        put_number(out, header + 4, NAME_END);
        put_number(out, header + 8, self.root.len() as u32);
        put_number(out, header + 12, self.target.address as u32);
        put_number(out, header + 16, self.target.raw_size as u32);
        put_number(out, header + 20, self.target.start as u32);
        put_number(out, header + 36, READ_DATA);
    }

    /// Changes the PE headers for a longer last section.
    fn put_extended(&self, out: &mut [u8], within: u32)
        requires slot { self.now.slot ≡ Slot.Extended within }
        requires len { length out.old ≡ (target_in self.now).len }
        ensures { out.new ≡ changed (extended_changes self.now.file within (length self.now.root) (target_in self.now)) out.old }
    {
        let headers = &self.headers;
        let header = headers.section_offset(headers.section_count() - 1);
        put_number(out, header + 8, within + self.root.len() as u32);
        put_number(out, header + 16, self.target.raw_size as u32);
        let size = headers.field(Field::InitializedDataSize) + self.target.raw_size as u32;
        let size = size - headers.last_section().raw_size;
        put_number(out, headers.field_offset(Field::InitializedDataSize), size);
        put_number(
            out,
            headers.field_offset(Field::ImageSize),
            self.image_size(),
        );
    }

    /// Changes MetaData in the CLI header (II.25.3.3).
    fn put_metadata(&self, out: &mut [u8])
        requires { length out.old ≡ (target_in self.now).len }
        ensures { out.new ≡ changed (metadata_changes self.now.header (length self.now.root) (target_in self.now)) out.old }
    {
        put_number(out, self.header.place + 8, self.target.address as u32);
        put_number(out, self.header.place + 12, self.root.len() as u32);
    }

    /// Clears the strong name in the CLI header, if that is wanted (II.25.3.3).
    fn put_strong_name(&self, out: &mut [u8])
        requires { length out.old ≡ (target_in self.now).len }
        ensures { out.new ≡ changed (strong_name_changes self.now.header self.now.strong_name) out.old }
    {
        match self.strong_name {
            StrongName::Keep => {}
            StrongName::Clear => {
                let flags = self.header.flags;
                put_number(
                    out,
                    self.header.place + 16,
                    flags - STRONG_NAME * (flags / STRONG_NAME % 2),
                );
                put_number(out, self.header.place + 32, 0);
                put_number(out, self.header.place + 36, 0);
            }
        }
    }

    /// Clears the directory of the Certificate Table (II.25.2.3.3).
    fn put_certificate(&self, out: &mut [u8])
        requires { length out.old ≡ (target_in self.now).len }
        ensures { out.new ≡ changed (certificate_changes self.now.file) out.old }
    {
        let offset = self.headers.certificate_offset();
        put_number(out, offset, 0);
        put_number(out, offset + 4, 0);
    }

    /// Writes the root, and zeros over the rest of the range that MetaData named.
    #[tactic(auto, using(crate::proofs::Parts::zeros_follow))]
    fn put_root(&self, out: &mut [u8])
        requires { length out.old ≡ (target_in self.now).len }
        ensures { out.new ≡ with_bytes (target_in self.now).start (root_bytes self.now.root self.now.header self.now.slot) out.old }
    {
        let start = self.target.start as usize;
        put_bytes(out, start, self.root);
        match self.slot {
            Slot::Reused => {
                let end = start + self.header.metadata.size as usize;
                out[start + self.root.len()..end].fill(0);
            }
            _ => {}
        }
    }

    /// Writes File Checksum, if that of the file is not 0 (II.25.2.3.2).
    fn put_checksum(&self, out: &mut [u8])
        requires { length out.old ≡ (target_in self.now).len }
        ensures { out.new ≡ with_checksum self.now.file out.old }
    {
        let offset = self.headers.field_offset(Field::Checksum);
        if self.headers.field(Field::Checksum) == 0 {
            return;
        }
        put_number(out, offset, 0);
        let sum = checksum(out);
        put_number(out, offset, sum);
    }
}
