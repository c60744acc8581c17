//! The check of one file.
ghost use Rattle.std.specs.Prelude.{◌∷◌, [], ℕ, List, false};
ghost use Rattle.cli_files.specs.Checks.{IsCheckOfFile};
ghost use Rattle.cli.specs.Tasks.{check_of_one};
ghost use Rattle.cli_runs.specs.Runs.{IsRunOn};

use std::io::Write;
use std::rt::Files;

/// What `clim_check` does with a file is a run of `clim check FILE`.
pub fn checks_are_runs<R: Files + Input, W: Write>()
    ensures { (before after : W) (file : List ℕ) (status : ℕ) → IsCheckOfFile W.contents before after R.File.remaining R.Reader.remaining file status
        → IsRunOn check_of_one W.contents false before after (file ∷ []) status }
{
    cli_print::laws::whole_files_are_ok();
}
