use crate::call::{Call, Failure, Tries, make, make_twice};
use crate::cell_text::text_of;
use crate::fault::ToolFault;
use book::OpenFault;
use cell_device::{Fuse, MemoryCell};
use fed_types::{Members, SiteNo, Slot};
use records::Owner;
use site::{Answer, Reply, Site, SiteFault};
use std::alloc::Global;
use std::mem;

/// A site that is open, or the cell of one that isn't.
#[derive(Drop)]
pub(crate) struct Place {
    site: Option<Site<MemoryCell>>,
    /// A cell without bytes while the site is open.
    cell: MemoryCell,
    tries: Tries,
}

impl Place {
    /// A cell without bytes.
    pub(crate) fn new(alloc: Global, tries: Tries) -> Place {
        Place {
            site: None,
            cell: empty_cell(alloc),
            tries,
        }
    }

    /// Calls the site.
    pub(crate) fn call(&mut self, alloc: Global, call: &Call) -> Result<Answer, Failure> {
        match self.tries {
            Tries::Twice => self.call_twice(alloc, call),
            Tries::Once => self.call_once(alloc, call),
        }
    }

    fn call_twice(&mut self, alloc: Global, call: &Call) -> Result<Answer, Failure> {
        match &mut self.site {
            Some(site) => make_twice(alloc, site, call),
            None => Err(Failure::Faulty(ToolFault::Line)),
        }
    }

    fn call_once(&mut self, alloc: Global, call: &Call) -> Result<Answer, Failure> {
        let text = self.text(alloc)?;
        match self.call_open(alloc, call) {
            Err(Failure::Refused(SiteFault::Memory)) => {
                Err(Failure::Faulty(self.close_over(text.as_slice())))
            }
            made => made,
        }
    }

    /// The bytes of the open site's cell, by its records.
    fn text(&self, alloc: Global) -> Result<Vec<u8>, ToolFault> {
        match &self.site {
            Some(site) => text_of(alloc, site),
            None => Err(ToolFault::Line),
        }
    }

    fn call_open(&mut self, alloc: Global, call: &Call) -> Result<Answer, Failure> {
        match &mut self.site {
            Some(site) => make(alloc, site, call),
            None => Err(Failure::Faulty(ToolFault::Line)),
        }
    }

    /// Closes the site after a call without memory, when its cell has to have these bytes.
    fn close_over(&mut self, text: &[u8]) -> ToolFault {
        self.close();
        if self.cell.bytes() == text {
            ToolFault::Unchanged
        } else {
            ToolFault::Wrong
        }
    }

    /// What the site knows of the slot.
    pub(crate) fn query(&self, slot: &Slot) -> Result<Result<Reply, SiteFault>, ToolFault> {
        match &self.site {
            Some(site) => Ok(site.query(slot)),
            None => Err(ToolFault::Line),
        }
    }

    pub(crate) fn set_fuse(&mut self, fuse: Fuse) {
        match &mut self.site {
            Some(site) => site.set_fuse(Some(fuse)),
            None => self.cell.set_fuse(Some(fuse)),
        }
    }

    /// How many records the open site has.
    pub(crate) fn count(&self) -> usize {
        match &self.site {
            Some(site) => site.records().len(),
            None => 0,
        }
    }

    /// What a read of the closed cell gives.
    pub(crate) fn bytes(&self) -> &[u8] {
        self.cell.bytes()
    }

    /// Closes the site, if it is open.
    pub(crate) fn close(&mut self) {
        match self.site.take() {
            Some(site) => self.keep_cell(site.close()),
            None => {}
        }
    }

    /// The site stops, and its device starts again.
    pub(crate) fn crash(&mut self) {
        self.close();
        self.cell.restart();
    }

    /// Opens the site over its cell. If this finds no memory, the site is opened again, and has to
    /// find some.
    pub(crate) fn open(
        &mut self,
        alloc: Global,
        members: Members,
        site: SiteNo,
    ) -> Result<(), OpenFault> {
        self.close();
        let owner = Owner { members, site };
        match self.open_once(alloc, &owner) {
            Err(OpenFault::Memory) => self.open_once(alloc, &owner),
            opened => opened,
        }
    }

    fn open_once(&mut self, alloc: Global, owner: &Owner) -> Result<(), OpenFault> {
        let cell = mem::replace(&mut self.cell, empty_cell(alloc));
        match Site::open(alloc, cell, *owner) {
            Ok(site) => self.keep_site(site),
            Err((cell, fault)) => self.refuse(cell, fault),
        }
    }

    fn keep_site(&mut self, site: Site<MemoryCell>) -> Result<(), OpenFault> {
        drop(self.site.replace(site));
        Ok(())
    }

    fn refuse(&mut self, cell: MemoryCell, fault: OpenFault) -> Result<(), OpenFault> {
        self.keep_cell(cell);
        Err(fault)
    }

    fn keep_cell(&mut self, cell: MemoryCell) {
        drop(mem::replace(&mut self.cell, cell));
    }
}

/// A cell without bytes.
pub(crate) fn empty_cell(alloc: Global) -> MemoryCell {
    MemoryCell::new(alloc, Vec::new(alloc))
}
