// The parts of memory that are lent for the bodies of a task.
ghost use Rattle.std.specs.Prelude.{◌≡◌};
ghost use Rattle.bodies.specs.Keeping.{Sound};
ghost use Rattle.translator.specs.Intake.{read_from, lent_in, kept_of, Lent};

use bodies::Kept;
use reader::limits::PAIR_BYTES;

// What is kept of each body, to be read.
#[derive(Clone, Copy)]
pub(crate) struct Bodies<'a> {
    pub sizes: &'a [u8],
    pub start: &'a [u8],
    pub goal: &'a [u8],
    pub actions: &'a [u8],
}

// Room for each body, to be written.
#[derive(Drop)]
pub(crate) struct Parts<'a> {
    pub sizes: &'a mut [u8],
    pub start: &'a mut [u8],
    pub goal: &'a mut [u8],
    pub actions: &'a mut [u8],
}

impl<'a> Bodies<'a> {
    // As much of each as is kept.
    pub(crate) fn kept(self, kept: Kept) -> Bodies<'a>
        requires { Sound kept × Lent (read_from self) }
        ensures { read_from result ≡ kept_of kept (read_from self.entry) }
    {
        Bodies {
            sizes: &self.sizes[..kept.sizes],
            start: &self.start[..kept.starts],
            goal: &self.goal[..PAIR_BYTES * kept.goals],
            actions: &self.actions[..kept.bytes],
        }
    }
}

impl Parts<'_> {
    // The same parts, to be read.
    pub(crate) fn read(&self) -> Bodies<'_>
        ensures { read_from result ≡ lent_in self.now }
    {
        Bodies {
            sizes: self.sizes,
            start: self.start,
            goal: self.goal,
            actions: self.actions,
        }
    }
}
