// A memory of the host in pages of 64 words, each in the frame that it is given. Its doors move.
ghost use Rattle.std.specs.Prelude.{◌≡◌, ◌*◌, ◌≤◌, true, length, vec_len};
ghost use Rattle.store.specs.Frames.{Below, Different};
ghost use Rattle.store.specs.Pages.{frames_of};

mod calls;

// The frame that a page lies in, and whether its door is open.
#[derive(Clone, Copy, Debug, PartialEq, Eq)]
struct Page {
    frame: u64,
    open: bool,
}

impl Page {
    fn new(frame: u64) -> Page
        ensures { result ≡ record { frame = frame; «open» = true } }
    {
        Page { frame, open: true }
    }
}

// Word w lies at w % 64 in the frame of page w / 64. No two pages have one frame.
#[derive(Drop)]
pub struct PagedStore<'a> {
    memory: &'a mut [u64],
    pages: Vec<Page>,
    ghost few: { vec_len pages ≤ 1024 },
    ghost room: { 64 * vec_len pages ≤ length memory.now },
    ghost within: { Below (frames_of pages.items) (vec_len pages) },
    ghost apart: { Different (frames_of pages.items) },
}
