ghost use Rattle.std.specs.Prelude.{◌≡◌, option_map, IfSome, IsSomeAnd};
ghost use Rattle.blob_values.specs.DescriptorParts.{IsDescriptor};
ghost use Rattle.blob_values.specs.DescriptorReading.{coded_of, descriptor_of};
ghost use Rattle.blob_values.specs.DescriptorValues.{Descriptor as Value};
ghost use Rattle.blob_values.specs.DescriptorViews.{view};

use crate::descriptor::Descriptor;
use crate::forms::{array, custom, fixed_array, fixed_string, native, safe_array};
use crate::native::Native;

/// The codes of types that something follows (II.23.4).
const FIXED_STRING: u8 = 0x17;

const SAFE_ARRAY: u8 = 0x1D;

const FIXED_ARRAY: u8 = 0x1E;

const ARRAY: u8 = 0x2A;

const CUSTOM: u8 = 0x2C;

/// A descriptor by its code and what follows it.
#[tactic(auto, unfolding(crate::specs::DescriptorReading::coded_of))]
fn coded(code: u8, tail: &[u8]) -> Option<Descriptor<'_>>
    ensures { option_map view result ≡ coded_of code tail.now }
{
    match code {
        ARRAY => array(tail),
        FIXED_STRING => fixed_string(tail),
        FIXED_ARRAY => fixed_array(tail),
        SAFE_ARRAY => safe_array(tail),
        CUSTOM => custom(tail),
        _ => {
            let of = Native::from_byte(code)?;
            native(of, tail)
        }
    }
}

/// The descriptor at the start of a blob.
#[tactic(auto, unfolding(crate::specs::DescriptorReading::descriptor_of))]
fn first(blob: &[u8]) -> Option<Descriptor<'_>>
    ensures { option_map view result ≡ descriptor_of blob.now }
{
    let (code, tail) = blob.split_first()?;
    coded(*code, tail)
}

/// The descriptor that the whole blob is (II.23.4); `None` if it is none. It takes time in proportion to the blob.
pub fn read_descriptor(blob: &[u8]) -> Option<Descriptor<'_>>
    ensures sound { IfSome result (λ d. IsDescriptor (view d) blob.now) }
    ensures complete { (v : Value) → IsDescriptor v blob.now → IsSomeAnd result (λ d. view d ≡ v) }
    ensures value { option_map view result ≡ descriptor_of blob.now }
{
    packed::laws::numbers_are_read();
    first(blob)
}
