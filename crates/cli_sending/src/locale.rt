//! Whether the characters of a locale are UTF-8.
ghost use Rattle.std.specs.Prelude.{◌≡◌, ◌==◌};
ghost use Rattle.std.specs.List.{before_first};
ghost use Rattle.std.specs.Option.{option_map};
ghost use Rattle.cli_sending.specs.Locale.{is_utf8_locale, is_utf8_name, set_or};

/// The value of a variable, or another one if it is not set or empty.
fn set_or<'a>(value: Option<&'a str>, other: &'a str) -> &'a str
    ensures { result.now ≡ set_or (option_map (λ text. text.now) value.entry) other.now }
{
    value.filter(|text| !text.is_empty()).unwrap_or(other)
}

/// Whether a codeset is UTF-8.
fn is_utf8_name(name: &str) -> bool
    ensures { result ≡ is_utf8_name name.now }
{
    name.eq_ignore_ascii_case("utf-8") || name.eq_ignore_ascii_case("utf8")
}

/// What is before the modifier of a codeset, if it has one.
fn without_modifier(name: &str) -> &str
    ensures { result.now ≡ before_first (λ byte. byte == 64) name.now }
{
    name.split_once('@').map_or(name, |(codeset, _)| codeset)
}

/// Whether the characters of a locale are UTF-8, by the variables `LC_ALL`, `LC_CTYPE` and `LANG`: the first that is set and not
/// empty decides (POSIX, Base Definitions, 8.2). Its codeset follows a dot, as in `de_DE.UTF-8@euro`.
pub fn is_utf8_locale(lc_all: Option<&str>, lc_ctype: Option<&str>, lang: Option<&str>) -> bool
    ensures { result ≡ is_utf8_locale (option_map (λ text. text.now) lc_all.entry) (option_map (λ text. text.now) lc_ctype.entry) (option_map (λ text. text.now) lang.entry) }
{
    let locale = set_or(lc_all, set_or(lc_ctype, set_or(lang, "")));
    locale
        .split_once('.')
        .is_some_and(|(_, codeset)| is_utf8_name(without_modifier(codeset)))
}
