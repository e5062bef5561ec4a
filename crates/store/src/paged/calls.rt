// Making a paged store, and its calls.
ghost use Rattle.std.specs.Prelude.{◌≡◌, ◌*◌, ◌<◌, ◌≤◌, length, IfOk, MatchOption, vec_len, slice_set};
ghost use Rattle.store.specs.Frames.{Fit, no_words};
ghost use Rattle.store.specs.Pages.{Opened};
ghost use Rattle.store.specs.Paged.{meaning_of, words_of, store_frames, store_doors, found_of, landed, Lies, IsPageOf, Laid};
ghost use Rattle.store.specs.Paging.{pages_bounded, pages_flagged};
ghost use Rattle.store.specs.Rules.{write_of, written, door_of, door_set};

use super::{Page, PagedStore};
use crate::{Cause, HostRefused, Store, StoreFault, check_frames};
use std::alloc::{AllocError, Global};

// A page for each frame, with every door open.
fn opened(heap: Global, frames: &[u64]) -> Result<Vec<Page>, AllocError>
    ensures { IfOk result (λ pages. Opened frames.now pages.items) }
{
    frames.iter().copied().map(Page::new).collect(heap)
}

impl<'a> PagedStore<'a> {
    // Frames that are refused make a store of no words.
    pub fn new(
        heap: Global,
        memory: &'a mut [u64],
        frames: &[u64],
    ) -> Result<PagedStore<'a>, AllocError>
        ensures lent { IfOk result (λ s. s.memory.ghost_name ≡ memory.entry.ghost_name) }
        ensures laid { Fit (length memory.old) frames.now → IfOk result (λ s. Laid memory.old frames.now s) }
        ensures refused { (Fit (length memory.old) frames.now → ⊥) → IfOk result (λ s. meaning_of s ≡ no_words) }
    {
        match check_frames(memory.len() as u64, frames) {
            Ok(()) => {
                let pages = opened(heap, frames)?;
                Ok(PagedStore { memory, pages })
            }
            Err(HostRefused) => Ok(PagedStore {
                memory,
                pages: Vec::new(heap),
            }),
        }
    }

    // How many pages there are.
    fn count(&self) -> u64
        ensures pages { result ≡ vec_len self.now.pages }
        ensures words { length (words_of self.now) ≡ 64 * result }
        ensures few { result ≤ 1024 }
    {
        self.pages.len() as u64
    }

    // The page of word `w`, if it is there.
    fn page(&self, w: u64) -> Option<&Page>
        ensures { MatchOption result (length (words_of self.now) ≤ w) (λ page. IsPageOf self.now w page.now) }
    {
        self.pages.get((w / 64) as usize)
    }

    // The place of word `w`, if its page is there and open.
    fn find(&self, w: u64) -> Result<usize, StoreFault>
        ensures answer { result ≡ found_of self.now w }
        ensures found { IfOk result (λ p. Lies self.now w p) }
    {
        match self.page(w) {
            None => Err(StoreFault::new(Cause::Beyond, w)),
            Some(page) if page.open => Ok((page.frame * 64 + w % 64) as usize),
            Some(_) => Err(StoreFault::new(Cause::Shut, w)),
        }
    }

    // Writes `v` to word `w`, which lies at `place`.
    fn put(&mut self, w: u64, place: usize, v: u64)
        requires { Lies self.old w place }
        ensures words { words_of self.new ≡ slice_set (words_of self.old) w v }
        ensures pages { self.new.pages ≡ self.old.pages }
        ensures lands { self.new.memory.now ≡ slice_set self.old.memory.now place v }
        ensures lent { self.new.memory.ghost_name ≡ self.old.memory.ghost_name }
    {
        self.memory[place] = v;
    }

    // Opens or shuts page `page`.
    fn turn(&mut self, page: u64, open: bool)
        requires { page < vec_len self.old.pages }
        ensures frames { store_frames self.new ≡ store_frames self.old }
        ensures doors { store_doors self.new ≡ slice_set (store_doors self.old) page «open» }
        ensures memory { self.new.memory ≡ self.old.memory }
    {
        self.pages[page as usize].open = open;
    }
}

impl<'a> Store for PagedStore<'a> {
    ghost meaning = { meaning_of };

    ghost bounded = { λ s. pages_bounded s.memory.now s.pages s.few };

    ghost flagged = { λ s. pages_flagged s.memory.now s.pages.items };

    fn len(&self) -> u64 {
        self.count() * 64
    }

    fn read(&self, w: u64) -> Result<u64, StoreFault> {
        let place = self.find(w)?;
        Ok(self.memory[place])
    }

    fn is_open(&self, w: u64) -> bool {
        self.page(w).is_some_and(|page| page.open)
    }

    fn write(&mut self, w: u64, v: u64) -> Result<(), StoreFault>
        ensures answer { result ≡ write_of (meaning_of self.old) w }
        ensures after { meaning_of self.new ≡ written (meaning_of self.old) w v }
        ensures lands { self.new.memory.now ≡ landed self.old w v }
        ensures lent { self.new.memory.ghost_name ≡ self.old.memory.ghost_name }
    {
        let place = self.find(w)?;
        self.put(w, place, v);
        Ok(())
    }

    fn set_door(&mut self, page: u64, open: bool) -> Result<(), Cause>
        ensures answer { result ≡ door_of (meaning_of self.old) page }
        ensures after { meaning_of self.new ≡ door_set (meaning_of self.old) page «open» }
        ensures same { self.new.memory.now ≡ self.old.memory.now }
        ensures lent { self.new.memory.ghost_name ≡ self.old.memory.ghost_name }
    {
        if page >= self.count() {
            return Err(Cause::Beyond);
        }
        self.turn(page, open);
        Ok(())
    }
}
