ghost use Rattle.std.specs.Prelude.{◌≡◌, ◌<◌, ◌^◌};
ghost use Rattle.file_ranges.specs.Fields.{aligned};

/// The least multiple of an alignment that is not below a number.
pub fn aligned(alignment: u32, number: u64) -> u64
    requires some { 0 < alignment }
    requires small { number < 2 ^ 34 }
    ensures { result ≡ aligned alignment number }
{
    let alignment = alignment as u64;
    (number + alignment - 1) / alignment * alignment
}
