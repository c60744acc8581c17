ghost use Rattle.std.specs.Prelude.{◌≡◌};
ghost use Rattle.packed.specs.Codes.{number_of_code};

/// A rule for a file, a metadata root or the output. A fault carries the number of the rule that is broken.
///
/// The hundreds of the number are the layer that checks the rule. 1: the image; 2: the CLI header;
/// 3: the metadata root; 4: the table stream; 5: the cells; 6: the order of rows; 7: the signatures;
/// 8: the entry point; 9: the writer. Section numbers are those of ECMA-335.
#[derive(Clone, Copy, Debug, PartialEq, Eq)]
pub enum FaultCode {
    /// The input has more than 2^30 bytes.
    TooLong = 101,
    /// There is no DOS header: fewer than 64 bytes, or they do not begin with `MZ` (II.25.2.1).
    DosHeader = 102,
    /// There is no PE signature at the offset that the DOS header gives (II.25.2.1).
    PeSignature = 103,
    /// The optional header has fewer than 216 bytes, or ends past the end of the file (II.25.2.2).
    OptionalHeader = 104,
    /// The optional header of a PE32+ file has fewer than 232 bytes.
    Pe32PlusSize = 105,
    /// The optional header is neither PE32 nor PE32+ (II.25.2.3.1).
    Magic = 106,
    /// There are fewer than fifteen data directories (II.25.2.3.2).
    Directories = 107,
    /// The section headers end past the end of the file (II.25.3).
    Sections = 108,
    /// The data directories have no CLI header (II.25.2.3.3).
    NoCliHeader = 201,
    /// The CLI header's directory has fewer than 72 bytes, or its bytes are not in the file (II.25.3.3).
    CliAddress = 202,
    /// The Cb field of the CLI header is below 72 (II.25.3.3).
    CliSize = 203,
    /// The bytes of the metadata are not in the file (II.25.3.3).
    MetadataAddress = 204,
    /// There is no metadata root signature (II.24.2.1).
    RootSignature = 301,
    /// The field of Length bytes does not hold a valid version (II.24.2.1).
    Version = 302,
    /// The root ends before or within Streams, the number of its streams (II.24.2.1).
    StreamCount = 303,
    /// There is no valid stream header at this offset (II.24.2.2).
    StreamHeader = 304,
    /// A stream that the standard names ends past the end of the root (II.24.2.2).
    StreamRange = 305,
    /// Two headers name the same stream of the standard (II.24.2.2).
    DuplicateStream = 306,
    /// The tables are in the uncompressed stream `#-`.
    Uncompressed = 307,
    /// There is no stream `#~` (II.24.2.2).
    NoTables = 308,
    /// The table stream has fewer than 24 bytes (II.24.2.6).
    TablesHeader = 401,
    /// The version of the table stream is not 2.0 (II.24.2.6).
    TablesVersion = 402,
    /// HeapSizes sets bits other than those of the three heaps (II.24.2.6).
    HeapSizes = 403,
    /// Valid names a table that the standard does not define (II.24.2.6).
    UnknownTable = 404,
    /// The row counts end past the end of the table stream (II.24.2.6).
    RowCounts = 405,
    /// A table has more than 0xFFFFFF rows (II.22).
    RowCount = 406,
    /// The tables end past the end of their stream (II.24.2.6).
    TablesShort = 407,
    /// No NUL ends the string at an index (II.24.2.3).
    BadString = 501,
    /// The string at an index is not UTF-8 (II.24.2.3).
    BadUtf8 = 502,
    /// There is no blob at an index (II.24.2.4).
    BadBlob = 503,
    /// There is no GUID at an index (II.24.2.5).
    BadGuid = 504,
    /// A coded index has an unused tag (II.24.2.6).
    BadTag = 505,
    /// An index names no row, or is null although its column does not allow null (II.22).
    BadIndex = 506,
    /// A list index is past the end of its table (II.22).
    BadList = 507,
    /// A user string has an even number of bytes, more than 0 (II.24.2.4).
    BadUserString = 508,
    /// A cell has a value that its column cannot hold (II.22). No file can break this rule.
    BadCell = 509,
    /// The number of user bytes is not a multiple of four, or above 2^30 (II.24.2.4). No file can break this rule.
    UserBytes = 510,
    /// A row has a lower key than the row before it (II.22).
    NotSorted = 601,
    /// The first run of members does not start at row 1, or a run starts before the run of the row before (II.22).
    BadRun = 602,
    /// There are members, but the table of their owners has no rows (II.22).
    NoOwner = 603,
    /// The enclosing class of a nested class does not come before it (II.22.32).
    NestedOrder = 604,
    /// A blob does not match the grammar of its column (II.23.2).
    BadSignature = 701,
    /// A type index in a signature names no row (II.23.2.8).
    SignatureIndex = 702,
    /// The entry point names no row of MethodDef or File (II.25.3.3).
    EntryPoint = 801,
    /// The canonical root would be longer than the limit.
    TooLarge = 901,
}

/// Each rule that has a name, in ascending order of numbers, as the input of a macro.
///
/// The others cannot be broken by a file.
macro_rules! each_named {
    ($then:ident $by:ident) => {
        $then! { $by
            TooLong DosHeader PeSignature OptionalHeader Pe32PlusSize Magic Directories Sections
            NoCliHeader CliAddress CliSize MetadataAddress
            RootSignature Version StreamCount StreamHeader StreamRange DuplicateStream Uncompressed
            NoTables
            TablesHeader TablesVersion HeapSizes UnknownTable RowCounts RowCount TablesShort
            BadString BadUtf8 BadBlob BadGuid BadTag BadIndex BadList BadUserString
            NotSorted BadRun NoOwner NestedOrder
            BadSignature SignatureIndex
            EntryPoint
            TooLarge
        }
    };
}

pub(crate) use each_named;

impl FaultCode {
    /// The number of the rule, as it is printed.
    pub fn number(self) -> u16
        ensures { result ≡ number_of_code self }
    {
        self as u16
    }
}
