//! The limits by their words.
ghost use Rattle.std.specs.Prelude.{◌≡◌};
ghost use Rattle.mol_report_logs.specs.Limits.{limit_text};

use mol_base::Which;

/// The word of a limit: its name in lower-case words joined by `-`. It takes no memory.
pub fn limit_word(which: &Which) -> &'static str
    ensures { result.now ≡ limit_text which.now }
{
    match which {
        Which::Files => "files",
        Which::FileBytes => "file-bytes",
        Which::SourceBytes => "source-bytes",
        Which::Height => "height",
        Which::Operations => "operations",
        Which::LogBytes => "log-bytes",
        Which::ScriptBytes => "script-bytes",
    }
}
