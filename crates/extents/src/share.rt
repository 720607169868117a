// A group's workers and its load.
ghost use Rattle.extents.specs.Code.Scans.{Scale};

// Levels of load q weigh q × workers / load.
#[derive(Clone, Copy)]
pub struct Share {
    pub workers: u32,
    pub load: u32,
    ghost scale: { Scale workers load },
}
