// A group that is split, and what is left of it.
ghost use Rattle.extents.specs.Code.Scans.{Scale};

use crate::{Left, Parent};

// How often its children may be split, too.
#[derive(Clone, Copy)]
pub struct Rest {
    pub up: Parent,
    pub left: Left,
    pub stages: u32,
    ghost scale: { Scale up.workers up.load },
}
