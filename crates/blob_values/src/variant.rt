ghost use Rattle.std.specs.Prelude.{◌≡◌};
ghost use Rattle.blob_values.specs.Words.{variant_word};

/// The word of ILAsm for a type of VARIANT, by its number in Microsoft's VARENUM; the empty text if there is none.
pub fn variant_word(of: u32) -> &'static str
    ensures { result.now ≡ variant_word of }
{
    match of {
        1 => "null",
        2 => "int16",
        3 => "int32",
        4 => "float32",
        5 => "float64",
        6 => "currency",
        7 => "date",
        8 => "bstr",
        9 => "idispatch",
        10 => "error",
        11 => "bool",
        12 => "variant",
        13 => "iunknown",
        14 => "decimal",
        16 => "int8",
        17 => "unsigned int8",
        18 => "unsigned int16",
        19 => "unsigned int32",
        20 => "int64",
        21 => "unsigned int64",
        22 => "int",
        23 => "unsigned int",
        24 => "void",
        25 => "hresult",
        26 => "*",
        27 => "safearray",
        28 => "carray",
        29 => "userdefined",
        30 => "lpstr",
        31 => "lpwstr",
        36 => "record",
        64 => "filetime",
        65 => "blob",
        66 => "stream",
        67 => "storage",
        68 => "streamed_object",
        69 => "stored_object",
        70 => "blob_object",
        71 => "cf",
        72 => "clsid",
        _ => "",
    }
}
