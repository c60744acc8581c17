//! The subcommands that print what a file contains.
use crate::subcommands::{
    BARE, BUDGET, FILE, FILES, FILES_FROM, JSON, NULL, RECURSIVE, Row, Usage,
};

pub(crate) const INFO: Row = usage!["info"
    "Print what an assembly is: its identity, headers and references" reports![FILES], "\
Each line begins with a word for what follows it:
  assembly   the identity of the assembly, as .NET writes it; a module alone has
             none
  module     the name and the Mvid of the module
  version    the version of the runtime, from the metadata root
  format     PE32 or PE32+, the number of the machine, its name if it is one of
             .NET, and the size of the debug directory in bytes, 0 if there is
             none
  flags      the flags of the CLI header, and the name of each that is set
  entry      the token of the entry point, 00000000 if there is none, and the
             name of the method
  signature  the sizes of the strong name signature and of the managed native
             header (ReadyToRun)
  types      the numbers of types, methods, fields and resources
  reference  the identity of an assembly that this one refers to
  attribute  the type and the arguments of a custom attribute of the assembly,
             if all arguments are strings; one with a value of more than 1,024
             bytes has no line
  more       the number of custom attributes of the assembly after the first
             256, which are not read; no line if there are none
With '--bare' there are no lines from 'format' to 'signature'. Texts are escaped
like those of 'clim show', but not quoted: a name may have commas. '--json' has
it apart. PublicKeyToken is computed from the key; it is '?' if the key has more
than 2,080 bytes. FILE is checked first, as by 'clim check'.

In a UTF-8 locale (LC_ALL, LC_CTYPE or LANG), visible characters beyond ASCII
are printed as they are; all else that is not printable ASCII is escaped.
" "\
With '--json' each line is a JSON object (RFC 8259) with the same values, the
parts of an identity apart. Of an attribute it has the first argument. For
several FILEs the 'file' comes first.

Examples:
  $ clim info one_module.dll
  module a.dll {03020100-0504-0706-0809-0a0b0c0d0e0f}
  version v4.0.30319
  format PE32 machine 0000014c i386 debug 0
  flags 00000001 ILONLY
  entry 00000000
  signature 0 native 0
  types 0 methods 0 fields 0 resources 0
  $ clim info --json --bare two_types.root
  {\"version\":\"v4.0.30319\"}
  {\"types\":2,\"methods\":1,\"fields\":2,\"resources\":0}"];

pub(crate) const ROOT: Row = usage!["root"
    "Print the CLI header, the version and the stream headers" &[
    FILES, BARE, FILES_FROM, NULL, RECURSIVE, JSON,
    argument!["until-fault" Flag "Print what can be read before a fault, then the fault"]], "\
For a PE file the first line is 'cli MAJOR.MINOR flags F entry E root OFFSET
SIZE' (ECMA-335, II.25.3.3). F and E are hexadecimal, and OFFSET is an offset in
the file. Then it prints 'version TEXT', and for each stream header 'stream
OFFSET SIZE NAME' (II.24.2.1 and II.24.2.2), with an OFFSET in the root. In TEXT
and NAME, a quote, a backslash and a byte that is not printable ASCII become \\x
and two hexadecimal digits. Tables, heaps and signatures are not checked.
" "\
'--until-fault' also prints the lines of a broken FILE, as far as its headers
can be read: that of the CLI header if layers 1 and 2 of 'clim check --help'
break no rule, then the version, and the stream headers before the first that
cannot be read. Then the fault is written to standard error, and the exit status
is 1.

'--json' prints a JSON object (RFC 8259) on each line, whose one member is
'cli', 'version' or 'stream'; for several FILEs the 'file' comes first. A fault
is printed to standard error as without the option.

Examples:
  $ clim root one_module.dll
  cli 2.5 flags 00000001 entry 00000000 root 592 144
  version v4.0.30319
  stream 80 40 #~
  stream 120 8 #Strings
  stream 128 16 #GUID
  $ clim root --bare one_module.root
  version v4.0.30319
  stream 80 40 #~
  stream 120 8 #Strings
  stream 128 16 #GUID
  $ clim root --json --bare one_module.root
  {\"version\":\"v4.0.30319\"}
  {\"stream\":{\"offset\":80,\"size\":40,\"name\":\"#~\"}}
  {\"stream\":{\"offset\":120,\"size\":8,\"name\":\"#Strings\"}}
  {\"stream\":{\"offset\":128,\"size\":16,\"name\":\"#GUID\"}}"];

pub(crate) const SHOW: Row = usage!["show"
    "Print the rows of all tables, or of one" reports![
    argument!["FILE" AnyNumber "The files to read, then the TABLE to print alone, if it is one"],
    argument!["names" Flag "Print the name of each column before its cell"],
    argument!["until-fault" Flag "Print the rows before the first fault, then the fault"]], "\
Prints for each table that has rows (ECMA-335, II.22) a line 'table NN NAME
COUNT', with the number NN of the table in hexadecimal. Then it prints a line
for each row: its number and its cells. A cell is one of these:
  \"..\"  a text; a quote, a backslash and a byte that is not printable ASCII
        become \\x and two hexadecimal digits
  <..>  bytes in hexadecimal, or a signature in its canonical encoding (II.23.2)
  {..}  a GUID
  +N    the row N where a run of members starts
  null  no GUID, or no row
  a decimal number, or the token of a row in eight hexadecimal digits
FILE is checked first, as by 'clim check'. If it breaks a rule, only the fault
is printed.
" "\
TABLE is the name or the number of a table. Only its rows are printed. The last
argument after a FILE is TABLE if it has no dash, dot or slash; a FILE with such
a name can be given as ./NAME. The tables and their columns are:
  00 Module: Generation Name Mvid EncId EncBaseId
  01 TypeRef: ResolutionScope TypeName TypeNamespace
  02 TypeDef: Flags TypeName TypeNamespace Extends FieldList MethodList
  04 Field: Flags Name Signature
  06 MethodDef: RVA ImplFlags Flags Name Signature ParamList
  08 Param: Flags Sequence Name
  09 InterfaceImpl: Class Interface
  0A MemberRef: Class Name Signature
  0B Constant: Type Parent Value
  0C CustomAttribute: Parent Type Value
  0D FieldMarshal: Parent NativeType
  0E DeclSecurity: Action Parent PermissionSet
  0F ClassLayout: PackingSize ClassSize Parent
  10 FieldLayout: Offset Field
  11 StandAloneSig: Signature
  12 EventMap: Parent EventList
  14 Event: EventFlags Name EventType
  15 PropertyMap: Parent PropertyList
  17 Property: Flags Name Type
  18 MethodSemantics: Semantics Method Association
  19 MethodImpl: Class MethodBody MethodDeclaration
  1A ModuleRef: Name
  1B TypeSpec: Signature
  1C ImplMap: MappingFlags MemberForwarded ImportName ImportScope
  1D FieldRVA: RVA Field
  20 Assembly: HashAlgId MajorVersion MinorVersion BuildNumber RevisionNumber
     Flags PublicKey Name Culture
  21 AssemblyProcessor: Processor
  22 AssemblyOS: OSPlatformID OSMajorVersion OSMinorVersion
  23 AssemblyRef: MajorVersion MinorVersion BuildNumber RevisionNumber Flags
     PublicKeyOrToken Name Culture HashValue
  24 AssemblyRefProcessor: Processor AssemblyRef
  25 AssemblyRefOS: OSPlatformID OSMajorVersion OSMinorVersion AssemblyRef
  26 File: Flags Name HashValue
  27 ExportedType: Flags TypeDefId TypeName TypeNamespace Implementation
  28 ManifestResource: Offset Flags Name Implementation
  29 NestedClass: NestedClass EnclosingClass
  2A GenericParam: Number Flags Owner Name
  2B MethodSpec: Method Instantiation
  2C GenericParamConstraint: Owner Constraint

'--names' begins the line of a row with its token instead of its number, and
prints the name of the column and an equals sign before each cell. So each line
says which row it is:
'clim show --names FILE | grep TypeName=' finds rows that 'clim token' prints.

'--until-fault' also prints the rows of a broken FILE, up to the first row with
a bad cell (layer 5 of 'clim check --help'). It prints no row if a rule of
layers 1 to 4 is broken, and all rows if only a later rule is. The blob of a
broken signature is printed as bytes. After the rows the fault is written to
standard error, and the exit status is 1.

'--json' prints a JSON object (RFC 8259) for each row, with its 'table', 'row'
and 'token', and then its cells by the names of their columns. For several FILEs
the 'file' comes first. A signature is an object with its bytes as 'blob' and
its 'text' in the notation of ILAsm. A fault is printed to standard error as
without the option.

Examples:
  $ clim show --bare one_module.root
  table 00 Module 1
  1: 0 \"a.dll\" {03020100-0504-0706-0809-0a0b0c0d0e0f} null null
  $ clim show --bare two_types.root Field
  table 04 Field 2
  1: 1 \"a\" <0608>
  2: 1 \"b\" <0608>
  $ clim show --names --bare two_types.root Field
  table 04 Field 2
  04000001 Flags=1 Name=\"a\" Signature=<0608>
  04000002 Flags=1 Name=\"b\" Signature=<0608>"];

pub(crate) const TYPES: Row = usage!["types"
    "Print the types, with the number of their fields and methods" reports![FILES], "\
Prints a line 'TOKEN NAME FIELDS METHODS' for each row of TypeDef (ECMA-335,
II.22.37). NAME begins with the namespace and a dot, if there is a namespace,
and is escaped like the texts of 'clim show', but not quoted: it may have
spaces, and ends before the last two numbers. FILE is checked first, as by 'clim
check'.
" "\
'--json' prints a JSON object (RFC 8259) on each line with the same values, the
namespace apart. For several FILEs the 'file' comes first. A fault is printed to
standard error as without the option.

Examples:
  $ clim types --bare two_types.root
  02000001 <Module> 0 0
  02000002 N.C 2 1
  $ clim types --json --bare two_types.root
  {\"token\":\"02000001\",\"namespace\":\"\",\"name\":\"<Module>\",\"fields\":0,\"methods\":0}
  {\"token\":\"02000002\",\"namespace\":\"N\",\"name\":\"C\",\"fields\":2,\"methods\":1}
  $ clim types --bare one_module.root two_types.root
  two_types.root: 02000001 <Module> 0 0
  two_types.root: 02000002 N.C 2 1"];

pub(crate) const OUTLINE: Row = usage!["outline"
    "Print the declarations of the assembly, or of one type" reports![
    argument!["FILE" AnyNumber "The files to read, then the type or the row to print alone, if any"],
    argument!["no-tokens" Flag "Leave the comment with the token away"],
    argument!["public" Flag "Print only what is visible outside of the assembly"],
    argument!["sorted" Flag "Print in the order of names, not of rows"]], "\
Prints a line for each declaration, in a notation close to ILAsm (ECMA-335, II.5
to II.22). A line ends with the token of its row in a comment. First come the
assembly, what it refers to, the module, files, resources and exported types.
Then come the types in the order of their rows, each with its fields, methods,
events and properties, and accessors below these. A nested type has the path of
its outer types only if the rows of NestedClass are in order. Last come default
values of parameters, interfaces, generic parameters and their constraints,
overrides, imports, permission sets and custom attributes, table by table. A
name that is no identifier is in single quotes, with '\\xNN' for bytes that
cannot stand there. A type of another module has its scope before its name, as
in '[mscorlib]System.Object'. A type has its generic parameters, its interfaces
and its layout; a field has its offset, its marshalling, its constant and the
address of its data. The value of an attribute has its arguments if their types
are known, and its bytes otherwise. Names, signatures and values longer than
65,536 bytes are cut and end in '..'. FILE is checked first, as by 'clim check'.

In a UTF-8 locale (LC_ALL, LC_CTYPE or LANG), visible characters beyond ASCII
are printed as they are; all else that is not printable ASCII is escaped.
" or_no_type "\
The last argument after a FILE is NAME, unless it has the form of a path: it is
'-', begins with '/', './' or '../', or ends in .dll, .exe, .winmd or
.netmodule, in any case.

NAME is the full name of a type: its namespace, a dot and its name, or its name
alone. A nested type follows the type that encloses it and a slash, as in
'N.Outer/Inner'. Names are divided at their last dot. It is given without
quotes; a name with a dot or a slash of its own is found by its token. If
several types have the same full name, the first one is printed. If no type has
it, a NAME without a dot or a slash stands for the only type of this name, in
any namespace or type. Only that type, its fields, methods, events and
properties are printed, and then the default values of parameters, interfaces,
generic parameters, constraints, overrides, imports, permission sets and
attributes of these and of the methods' parameters. If FILE has no such type,
'no such type' is written to standard error, and the exit status is 1. If
several types have the name, the first 20 of them are listed instead.

Eight hexadecimal digits that begin with the number of a table are a token
instead. That of TypeDef (02) stands for the type. Of a row of another table the
line is printed that it has here or in 'clim refs'. A row without such a line,
as that of a TypeSpec or of a parameter without a default value, is reported as
'no such type'.

The method or the file that the CLI header of FILE names as the entry point has
'.entrypoint' at the end of its declaration (II.25.3.3.2). A bare root has none.

'--no-tokens' leaves the comment with the token away, so that 'diff' compares
the outlines of two versions.

'--public' prints only what is visible outside of the assembly: public types;
nested types that are public, family, or family or assembly, in visible types;
fields and methods of visible types with such an access; events and properties
with a visible accessor; and public resources. Accessors, interfaces, generic
parameters, constraints, overrides, imports, permission sets and attributes are
printed if what they describe is visible. The assembly, what it refers to, the
module, files and exported types are printed always. Of a NAME that is not
visible nothing is printed. With '--no-tokens --sorted', 'diff' compares the
public interfaces of two versions.

'--sorted' prints in the order of names in place of that of rows: types by their
full names, and of a type its fields, methods, events and properties each by
theirs. Declarations of one name, or of none, stand in the order of their bytes.
At least 64 bytes of name and declaration are compared, and more if there are
fewer rows; what is equal so far stays in the order of rows.

'--json' prints a JSON object (RFC 8259) on each line, with the 'token' of the
row, the 'directive' and the 'text' of the declaration. The directive is its
first word. The text is the line without spaces before it and without the
comment. A field, method, event or property also has the token of its 'type'.
For several FILEs the 'file' comes first.

Examples:
  $ clim outline --bare two_types.root
  .class private auto ansi '<Module>'  // 02000001
  .class public auto ansi beforefieldinit N.C  // 02000002
    .field private int32 N.C::a  // 04000001
    .field private int32 N.C::b  // 04000002
    .method public void N.C::M() cil managed  // 06000001
  $ clim outline --bare two_types.root N.C
  .class public auto ansi beforefieldinit N.C  // 02000002
    .field private int32 N.C::a  // 04000001
    .field private int32 N.C::b  // 04000002
    .method public void N.C::M() cil managed  // 06000001
  $ clim outline --bare two_types.root 02000001
  .class private auto ansi '<Module>'  // 02000001
  $ clim outline --bare two_types.root 04000002
    .field private int32 N.C::b  // 04000002"];

pub(crate) const REFS: Row = usage!["refs"
    "Print what the assembly refers to in other modules" reports![
    argument!["FILE" AnyNumber "The files to read, then the type to print alone, if it is one"]], "\
Prints a line for each module, type, method and field that the assembly refers
to, in the order of the rows of ModuleRef, TypeRef and MemberRef (ECMA-335,
II.22.31, II.22.38, II.22.25). A line ends with the token of its row in a
comment. A type has its scope in brackets before its name (II.7.3). Names are
quoted and cut as by 'clim outline'. FILE is checked first, as by 'clim check'.
" or_no_type "\
The last argument after a FILE is NAME, unless it has the form of a path, as for
'clim outline'. NAME is the full name of a type of another module, without its
scope: its namespace, a dot and its name. A nested type follows the type that
encloses it and a slash. Eight hexadecimal digits that begin with 01 are the
token of a TypeRef instead. Only that type is printed, and its methods and
fields, also those of its instances if it is generic (II.23.2.14). If types of
several scopes have the name, all are printed. If FILE refers to no such type,
'no such type' is written to standard error, and the exit status is 1.

'--json' prints a JSON object (RFC 8259) on each line, as 'clim outline --json'.
For several FILEs the 'file' comes first.

Examples:
  $ clim refs shapes.dll | head -n 2
  .module extern nativelib  // 1a000001
  .typeref [mscorlib]System.Object  // 01000001
  $ clim refs shapes.dll System.Object
  .typeref [mscorlib]System.Object  // 01000001
  .memberref instance void [mscorlib]System.Object::.ctor()  // 0a000001"];

pub(crate) const RESOURCES: Row = usage!["resources"
    "Print where the resources are, or write the content of one" &[
    FILES, BUDGET, FILES_FROM, NULL, RECURSIVE, JSON,
    argument!["extract" Option("NAME") "Write the content of this resource alone"]], "\
Prints a line for each row of ManifestResource (ECMA-335, II.22.24), in their
order: 'resource OFFSET SIZE VISIBILITY NAME', with the offset and the size of
its content in FILE, or 'resource in HOLDER VISIBILITY NAME' if another file or
assembly has it. Texts are escaped like those of 'clim show', but not quoted.
FILE is a PE file, and is checked first, as by 'clim check'. If a resource is
not within the resources directory (II.25.3.3), nothing is printed, and the exit
status is 1.

'--extract NAME' writes the content of the first resource with this name to
standard output, and nothing else. It takes one FILE, and no '--json'. If there
is no such resource in FILE, the exit status is 1.
" "\
'--json' prints a JSON object (RFC 8259) on each line. Its member 'resource' is
an object with the 'token', the 'offset' and the 'size', or what has it, the
'visibility' and the 'name'. For several FILEs the 'file' comes first.

Examples:
  $ clim resources shapes.dll
  resource 2364 7 public notes.txt
  $ clim resources --extract notes.txt shapes.dll
  a note"];

pub(crate) const STRINGS: Row = usage!["strings"
    "Print the user strings, with their tokens" reports![FILES], "\
Prints a line 'TOKEN TEXT' for each entry of '#US' that is not empty (ECMA-335,
II.24.2.4), in the order of their offsets. 'clim token' prints the entry of a
TOKEN. The entries follow one another from offset 1, up to the end, to offset
0x1000000, or to bytes that are no user string. In TEXT, a backslash and a unit
that is not printable ASCII become \\u and four hexadecimal digits. FILE is
checked first, as by 'clim check'.
" "\
'--json' prints a JSON object (RFC 8259) on each line, with the 'token' and the
'text', or the numbers of the text as 'units' if it is not well-formed UTF-16.
For several FILEs the 'file' comes first. A fault is printed to standard error
as without the option.

Examples:
  $ clim strings --bare two_strings.root
  70000001 Hello
  7000000d a\\u005cb"];

pub(crate) const TOKEN: Row = usage!["token"
    "Print the row or the user string of each token" &[
    FILE, BARE, BUDGET, JSON, argument!["HEX" Several "The tokens: one to eight hexadecimal digits each"]], "\
The high byte of HEX is the number of a table, and the other bytes are a row
(ECMA-335, III.1.9). It prints the line of that row in 'clim show'. If the high
byte is 70, the other bytes are an offset in the user strings (II.24.2.4). It
then prints 'user TEXT FLAG'. In TEXT, a backslash and a unit that is not
printable ASCII become \\u and four hexadecimal digits. FLAG is the last byte.
For an entry of no bytes it prints 'user'. FILE is checked first, as by 'clim
check'.

Several HEX are looked up in the order given, in one reading of FILE. At the
first one without a row or a string it stops with 'no such row' and exit status
1.

'--json' prints a JSON object (RFC 8259) on each line: that of the row in 'clim
show --json', or the 'text' and the 'flag' of a user string, with its numbers as
'units' if it is not well-formed UTF-16. A fault is printed to standard error as
without the option.

Examples:
  $ clim token --bare one_module.root 00000001
  1: 0 \"a.dll\" {03020100-0504-0706-0809-0a0b0c0d0e0f} null null
  $ clim token --bare one_module.root 70000000 00000001
  user
  1: 0 \"a.dll\" {03020100-0504-0706-0809-0a0b0c0d0e0f} null null
  $ clim token --json --bare one_module.root 70000000
  {\"token\":\"70000000\",\"text\":\"\",\"flag\":null}"];

pub(crate) const WHERE: Row = usage!["where"
    "Print which header, stream or cell contains the byte at an offset" reports![
    argument!["FILE" AnyNumber "The files to read, then the OFFSET of a byte"]], "\
Prints a line 'START SIZE WHAT' for each structure that contains the byte, the
outermost first. START is its offset in FILE. OFFSET counts from the first byte
of FILE, like the OFFSET of a fault. If nothing contains the byte, it prints the
word 'nothing' and exits with status 1.

Structures are the headers of the PE file with their fields and data directories
(ECMA-335, II.25.2), section headers and sections (II.25.3), the CLI header with
its fields and the parts that it refers to (II.25.3.3), the metadata root and
its fields, the stream headers (II.24.2.1, II.24.2.2), the streams, and the
fields, row counts and cells of the table stream (II.24.2.6). Lines of these
heap entries follow: a string, GUID or blob with each of the first ten cells
that refer to it, and a user string with its token (II.24.2.3 to II.24.2.5).
Then come the first ten methods whose bodies contain the byte, the first ten
fields whose data contains it, and the first resource whose content contains it,
each with its token and its name (II.22.18, II.22.24, II.22.26, II.25.4). If the
size of data is not known, it is 0, and only the first byte of the data has the
line. Of a file with more than 96 sections no methods and no fields are printed.

If the last structure is a cell, or a field of at most four bytes, a line
'OFFSET: value NUMBER' follows the structures, with the NUMBER in hexadecimal
too, or with its tag and row if it is a coded index (II.24.2.6). Of a cell it
ends with the words of flags (II.23.1), or with what 'clim show' prints of it if
the number refers to a row or to a heap.

A section has its number from 1 and its name. A cell has its table, its row from
1, and its column from 0 and by name (II.22); the padding byte of Constant has
no column. The names of streams and sections are escaped like the texts of 'clim
show'.

FILE is checked first, as by 'clim check'. If it breaks a rule, only the parts
that are valid are described, down to the cells. The fault follows on standard
error, and the exit status is 1.

The last argument is OFFSET, decimal or hexadecimal after '0x'. For several
FILEs each line begins with 'FILE: '. The exit status is the greatest. 'clim
check --help' says what '-r', '-0' and '--files-from' read.

'--json' prints a JSON object (RFC 8259) on each line, with the 'offset', the
'size' and the 'structure' that contains the byte. A 'cell' also has its
'table', 'row' and 'column', and 'padding' the first two. A 'string', 'guid' or
'blob' has its 'stream' and those of the cell that refers to it. A 'user string'
has its 'stream' and 'token', a 'method', 'field' or 'resource' its 'token' and
'name'. The line of a number has its 'offset' and its 'value', and the meaning
of a cell by the name of its column. For several FILEs the 'file' comes first.
If nothing contains the byte, nothing is printed.

Examples:
  $ clim where one_module.dll 0x208
  512 512 section 1
  520 72 cli header
  520 4 cli header Cb
  0x208: value 72 (0x48)
  $ clim where --bare one_module.root 128
  0 144 root
  128 16 stream #GUID
  128 16 guid of table 00 Module row 1 column 2 Mvid"];
