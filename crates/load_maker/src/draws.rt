//! The draws of a block.
ghost use Rattle.std.specs.Prelude.{◌≡◌};

use docdb_base::Generator;

/// The nine draws of a block, in their order.
#[derive(Clone, Copy, Debug)]
pub(crate) struct Draws {
    pub(crate) session: u32,
    pub(crate) key: u32,
    pub(crate) value: u32,
    pub(crate) other_key: u32,
    pub(crate) other_value: u32,
    pub(crate) single_session: u32,
    pub(crate) single_key: u32,
    pub(crate) single_value: u32,
    pub(crate) read_key: u32,
}

impl Draws {
    ghost use Rattle.load_maker.specs.Made.{draws_from, state};

    /// The next nine draws.
    pub(crate) fn of(generator: &mut Generator) -> Draws
        ensures draws { result ≡ draws_from generator.old.state }
        ensures state { generator.new.state ≡ state 9 generator.old.state }
    {
        Draws {
            session: generator.draw(),
            key: generator.draw(),
            value: generator.draw(),
            other_key: generator.draw(),
            other_value: generator.draw(),
            single_session: generator.draw(),
            single_key: generator.draw(),
            single_value: generator.draw(),
            read_key: generator.draw(),
        }
    }
}
