//! The line of one file.
ghost use Rattle.std.specs.Prelude.{◌≡◌, ◌∷◌, ◌++◌, [], None};
ghost use Rattle.cli_faults.specs.Texts.{ok_text};
ghost use Rattle.cli_lines.specs.Lines.{report_text};
ghost use Rattle.cli_lines.specs.declared.parts.Form.TheVariants.{Text};
ghost use Rattle.cli_print.specs.Verdicts.{verdict_line};

/// Of a file that breaks no rule and is not named, the line is `ok`.
pub fn whole_files_are_ok()
    ensures { report_text Text (verdict_line None None ∷ []) ≡ ok_text ++ 10 ∷ [] }
{}
