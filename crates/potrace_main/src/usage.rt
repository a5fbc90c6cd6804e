//! What the program tells of itself.
ghost use Rattle.std.specs.Prelude.{◌≡◌};
ghost use Rattle.potrace_main.specs.Usage.{help_text, version_text};

/// How the program is used.
const HELP: &[u8] = b"usage: potrace [options] [file...]\n\
    options are those of the potrace manual page, see 01 section 9\n";

/// Which version the program is.
const VERSION: &[u8] = b"potrace, integer profile 1\n";

/// How the program is used, in two lines.
pub(crate) fn help_text() -> &'static [u8]
    ensures { result.now ≡ help_text }
{
    HELP
}

/// Which version the program is, in a line.
pub(crate) fn version_text() -> &'static [u8]
    ensures { result.now ≡ version_text }
{
    VERSION
}
