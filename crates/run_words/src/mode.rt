//! What a run of the program does.
ghost use Rattle.std.specs.Prelude.{◌≡◌, None, Some};
ghost use Rattle.run_words.specs.Words.{mode_named};

/// What a run of the program does.
#[derive(Clone, Copy, Debug, PartialEq, Eq)]
pub enum Mode {
    /// One thread runs a script in a chosen order.
    Sim,
    /// Many threads run a script.
    Run,
    /// One thread runs a script that is made from a number.
    Load,
}

impl Mode {
    // The mode of this name.
    pub(crate) fn named(name: &str) -> Option<Mode>
        ensures { result ≡ mode_named name.now }
    {
        match name {
            "sim" => Some(Mode::Sim),
            "run" => Some(Mode::Run),
            "load" => Some(Mode::Load),
            _ => None,
        }
    }
}
