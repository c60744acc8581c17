ghost use Rattle.std.specs.Prelude.{◌≡◌, map, OnOk};
ghost use Rattle.std.specs.Fmt.{WritesInCalls};
ghost use Rattle.type_heads.specs.FlagWords.{leading_text, leading_words, shown_word, words_of};

use full_names::write_text;
use std::fmt;

/// A word of ILAsm for bits of flags (II.23.1).
#[derive(Clone, Copy)]
pub struct FlagWord {
    /// The bits that decide.
    pub mask: u32,
    /// Their value if the flags have the word.
    pub value: u32,
    /// The word.
    pub text: &'static str,
}

macro_rules! words {
    ($($mask:literal $value:literal $text:literal;)*) => {
        &[$(FlagWord { mask: $mask, value: $value, text: $text }),*]
    };
}

/// A kind of flags.
#[derive(Clone, Copy)]
pub enum FlagTable {
    /// Of types (II.23.1.15).
    Type,
    /// Of assemblies (II.23.1.2).
    Assembly,
    /// Of assemblies: whether a key is whole or a token.
    Key,
    /// Of files (II.23.1.6).
    File,
    /// Of resources (II.23.1.9).
    Resource,
    /// Of fields (II.23.1.5).
    Field,
    /// Of methods (II.23.1.10).
    Method,
    /// Of the implementation of methods (II.23.1.11).
    Implementation,
    /// Of generic parameters (II.23.1.7).
    Generic,
    /// Of events and properties (II.23.1.4, II.23.1.14).
    Mapped,
    /// Of accessors of properties and events (II.23.1.12).
    Semantics,
    /// Of parameters (II.23.1.13).
    Param,
    /// Of imported methods (II.23.1.8).
    Import,
}

const TYPE: &[FlagWord] = words![
    0x0000_0007 0x0000_0000 "private"; 0x0000_0007 0x0000_0001 "public";
    0x0000_0007 0x0000_0002 "nested public"; 0x0000_0007 0x0000_0003 "nested private";
    0x0000_0007 0x0000_0004 "nested family"; 0x0000_0007 0x0000_0005 "nested assembly";
    0x0000_0007 0x0000_0006 "nested famandassem"; 0x0000_0007 0x0000_0007 "nested famorassem";
    0x0000_0018 0x0000_0000 "auto"; 0x0000_0018 0x0000_0008 "sequential";
    0x0000_0018 0x0000_0010 "explicit"; 0x0000_0020 0x0000_0020 "interface";
    0x0000_0080 0x0000_0080 "abstract";
    0x0000_0100 0x0000_0100 "sealed"; 0x0000_0400 0x0000_0400 "specialname";
    0x0000_1000 0x0000_1000 "import"; 0x0000_2000 0x0000_2000 "serializable";
    0x0003_0000 0x0000_0000 "ansi"; 0x0003_0000 0x0001_0000 "unicode";
    0x0003_0000 0x0002_0000 "autochar"; 0x0010_0000 0x0010_0000 "beforefieldinit";
    0x0000_0800 0x0000_0800 "rtspecialname"; 0x0020_0000 0x0020_0000 "forwarder";
];

const ASSEMBLY: &[FlagWord] = words![0x0100 0x0100 "retargetable";];

const KEY: &[FlagWord] = words![
    0x0001 0x0001 ".publickey"; 0x0001 0x0000 ".publickeytoken";
];

const FILE: &[FlagWord] = words![0x0001 0x0001 "nometadata";];

const RESOURCE: &[FlagWord] = words![
    0x0007 0x0001 "public"; 0x0007 0x0002 "private";
];

const GENERIC: &[FlagWord] = words![
    0x0003 0x0001 "+"; 0x0003 0x0002 "-";
    0x0004 0x0004 "class"; 0x0008 0x0008 "valuetype";
    0x0010 0x0010 ".ctor";
];

const MAPPED: &[FlagWord] = words![
    0x0200 0x0200 "specialname"; 0x0400 0x0400 "rtspecialname";
];

const SEMANTICS: &[FlagWord] = words![
    0x0001 0x0001 ".set"; 0x0002 0x0002 ".get";
    0x0004 0x0004 ".other"; 0x0008 0x0008 ".addon";
    0x0010 0x0010 ".removeon"; 0x0020 0x0020 ".fire";
];

const PARAM: &[FlagWord] = words![
    0x0001 0x0001 "[in]"; 0x0002 0x0002 "[out]"; 0x0010 0x0010 "[opt]";
];

const IMPORT: &[FlagWord] = words![
    0x0001 0x0001 "nomangle"; 0x0006 0x0002 "ansi";
    0x0006 0x0004 "unicode"; 0x0006 0x0006 "autochar";
    0x0040 0x0040 "lasterr"; 0x0700 0x0100 "platformapi";
    0x0700 0x0200 "cdecl"; 0x0700 0x0300 "stdcall";
    0x0700 0x0400 "thiscall"; 0x0700 0x0500 "fastcall";
];

const FIELD: &[FlagWord] = words![
    0x0007 0x0000 "compilercontrolled"; 0x0007 0x0001 "private";
    0x0007 0x0002 "famandassem"; 0x0007 0x0003 "assembly";
    0x0007 0x0004 "family"; 0x0007 0x0005 "famorassem";
    0x0007 0x0006 "public"; 0x0010 0x0010 "static";
    0x0020 0x0020 "initonly"; 0x0040 0x0040 "literal";
    0x0080 0x0080 "notserialized"; 0x0200 0x0200 "specialname";
    0x2000 0x2000 "pinvokeimpl"; 0x0400 0x0400 "rtspecialname";
];

const METHOD: &[FlagWord] = words![
    0x0007 0x0000 "compilercontrolled"; 0x0007 0x0001 "private";
    0x0007 0x0002 "famandassem"; 0x0007 0x0003 "assembly";
    0x0007 0x0004 "family"; 0x0007 0x0005 "famorassem";
    0x0007 0x0006 "public"; 0x0010 0x0010 "static";
    0x0020 0x0020 "final"; 0x0040 0x0040 "virtual";
    0x0080 0x0080 "hidebysig"; 0x0100 0x0100 "newslot";
    0x0200 0x0200 "strict"; 0x0400 0x0400 "abstract";
    0x0800 0x0800 "specialname"; 0x2000 0x2000 "pinvokeimpl";
    0x0008 0x0008 "unmanagedexp"; 0x1000 0x1000 "rtspecialname";
    0x8000 0x8000 "reqsecobj";
];

const IMPLEMENTATION: &[FlagWord] = words![
    0x0003 0x0000 "cil"; 0x0003 0x0001 "native";
    0x0003 0x0002 "optil"; 0x0003 0x0003 "runtime";
    0x0004 0x0004 "unmanaged"; 0x0004 0x0000 "managed";
    0x0010 0x0010 "forwardref"; 0x0080 0x0080 "preservesig";
    0x1000 0x1000 "internalcall"; 0x0020 0x0020 "synchronized";
    0x0008 0x0008 "noinlining"; 0x0040 0x0040 "nooptimization";
];

/// The words of a kind of flags, in the order of the standard. Flags have a word if their bits under its mask have its
/// value. Bits that the standard does not name have no word.
pub fn words_of(of: FlagTable) -> &'static [FlagWord]
    ensures { map shown_word result.now ≡ words_of of }
{
    match of {
        FlagTable::Type => TYPE,
        FlagTable::Assembly => ASSEMBLY,
        FlagTable::Key => KEY,
        FlagTable::File => FILE,
        FlagTable::Resource => RESOURCE,
        FlagTable::Field => FIELD,
        FlagTable::Method => METHOD,
        FlagTable::Implementation => IMPLEMENTATION,
        FlagTable::Generic => GENERIC,
        FlagTable::Mapped => MAPPED,
        FlagTable::Semantics => SEMANTICS,
        FlagTable::Param => PARAM,
        FlagTable::Import => IMPORT,
    }
}

/// Writes a word and a space, if the flags have its value.
fn write_flag<W: fmt::Write>(out: &mut W, flags: u32, word: FlagWord) -> fmt::Result
    ensures { OnOk result (WritesInCalls W.write_str_gives out.old (leading_text flags (shown_word word)) out.new) }
{
    if flags & word.mask != word.value {
        return Ok(());
    }
    write_text(out, word.text)?;
    write_text(out, " ")
}

/// Writes the words of flags (II.10.1.7, II.15.4), a space after each.
pub fn write_flags<W: fmt::Write>(out: &mut W, of: FlagTable, flags: u32) -> fmt::Result
    ensures { OnOk result (WritesInCalls W.write_str_gives out.old (leading_words flags (words_of of)) out.new) }
{
    for word in words_of(of) {
        write_flag(out, flags, *word)?;
    }
    Ok(())
}
