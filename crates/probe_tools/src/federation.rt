use crate::call::{Call, Failure, Tries};
use crate::fault::ToolFault;
use crate::output::Output;
use crate::place::Place;
use crate::push::push;
use crate::tree::tree;
use crate::words::{bytes_of, fuse_of, members_of, place_of_number, site_of, slot_of};
use bag_tree::Facts;
use fed_types::{Members, SiteNo, Slot};
use site::{Answer, Outgoing, Reply, SiteFault};
use std::alloc::Global;

/// The sites of a federation, and the trees that were made. Each command has its words in a slice.
#[derive(Drop)]
pub(crate) struct Federation {
    alloc: Global,
    tries: Tries,
    members: Option<Members>,
    places: Vec<Place>,
    trees: Vec<Facts>,
}

impl Federation {
    /// A federation that has yet to begin.
    pub(crate) fn new(alloc: Global, tries: Tries) -> Federation {
        Federation {
            alloc,
            tries,
            members: None,
            places: Vec::new(alloc),
            trees: Vec::new(alloc),
        }
    }

    /// Whether it has members.
    pub(crate) fn has_begun(&self) -> bool {
        self.members.is_some()
    }

    /// Begins anew: each site is open, over a cell without bytes, and there are no trees.
    pub(crate) fn begin(&mut self, words: &[&str]) -> Result<(), ToolFault> {
        let members = members_of(words)?;
        self.members = Some(members);
        self.places.clear();
        self.trees.clear();
        for site in members.sites() {
            self.add_site(members, site)?;
        }
        Ok(())
    }

    fn add_site(&mut self, members: Members, site: SiteNo) -> Result<(), ToolFault> {
        push(&mut self.places, Place::new(self.alloc, self.tries))?;
        match self.places.get_mut(place_of(site)) {
            Some(place) => open_new(self.alloc, place, members, site),
            None => Err(ToolFault::Wrong),
        }
    }

    /// Makes the next tree, whose manifest has these bytes.
    pub(crate) fn add_tree(&mut self, folder: bool, words: &[&str]) -> Result<(), ToolFault> {
        match words {
            [manifest] => self.add_tree_of(folder, bytes_of(self.alloc, manifest)?.as_slice()),
            _ => Err(ToolFault::Line),
        }
    }

    fn add_tree_of(&mut self, folder: bool, manifest: &[u8]) -> Result<(), ToolFault> {
        match tree(self.alloc, folder, manifest) {
            Ok(facts) => push(&mut self.trees, facts),
            Err(fault) => Err(fault),
        }
    }

    pub(crate) fn deposit(&mut self, words: &[&str]) -> Result<Answer, Failure> {
        match words {
            [site, tree, object, version] => {
                let (site, tree) = (site_of(site)?, place_of_number(tree)?);
                let slot = slot_of(self.alloc, object, version)?;
                self.deposit_at(site, tree, &slot)
            }
            _ => Err(Failure::Faulty(ToolFault::Line)),
        }
    }

    fn deposit_at(&mut self, site: SiteNo, tree: usize, slot: &Slot) -> Result<Answer, Failure> {
        match self.trees.get(tree) {
            Some(facts) => {
                let call = Call::Deposit(slot, facts);
                call_at(self.alloc, &mut self.places, site, &call)
            }
            None => Err(Failure::Faulty(ToolFault::Line)),
        }
    }

    pub(crate) fn propose(&mut self, words: &[&str]) -> Result<Answer, Failure> {
        match words {
            [site, object, version] => {
                let site = site_of(site)?;
                let slot = slot_of(self.alloc, object, version)?;
                call_at(self.alloc, &mut self.places, site, &Call::Propose(&slot))
            }
            _ => Err(Failure::Faulty(ToolFault::Line)),
        }
    }

    pub(crate) fn recover(&mut self, words: &[&str]) -> Result<Answer, Failure> {
        match words {
            [site, object, version] => {
                let site = site_of(site)?;
                let slot = slot_of(self.alloc, object, version)?;
                call_at(self.alloc, &mut self.places, site, &Call::Recover(&slot))
            }
            _ => Err(Failure::Faulty(ToolFault::Line)),
        }
    }

    pub(crate) fn ask(&mut self, words: &[&str]) -> Result<Answer, Failure> {
        match words {
            [site, to, object, version] => {
                let (site, to) = (site_of(site)?, site_of(to)?);
                let slot = slot_of(self.alloc, object, version)?;
                call_at(self.alloc, &mut self.places, site, &Call::Ask(&slot, to))
            }
            _ => Err(Failure::Faulty(ToolFault::Line)),
        }
    }

    /// Bytes arrive at a site.
    pub(crate) fn arrive(&mut self, words: &[&str]) -> Result<Answer, Failure> {
        match words {
            [site, digits] => {
                let site = site_of(site)?;
                let bytes = bytes_of(self.alloc, digits)?;
                let call = Call::Arrive(bytes.as_slice());
                call_at(self.alloc, &mut self.places, site, &call)
            }
            _ => Err(Failure::Faulty(ToolFault::Line)),
        }
    }

    /// A datagram that was sent arrives at the site that it was sent to.
    pub(crate) fn deliver(&mut self, words: &[&str], sent: &[Outgoing]) -> Result<Answer, Failure> {
        match words {
            [number] => self.deliver_one(sent.get(place_of_number(number)?)),
            _ => Err(Failure::Faulty(ToolFault::Line)),
        }
    }

    fn deliver_one(&mut self, datagram: Option<&Outgoing>) -> Result<Answer, Failure> {
        match datagram {
            Some(datagram) => {
                let call = Call::Arrive(datagram.bytes.as_slice());
                call_at(self.alloc, &mut self.places, datagram.to, &call)
            }
            None => Err(Failure::Faulty(ToolFault::Line)),
        }
    }

    pub(crate) fn query(&self, words: &[&str]) -> Result<Result<Reply, SiteFault>, ToolFault> {
        match words {
            [site, object, version] => {
                let site = site_of(site)?;
                let slot = slot_of(self.alloc, object, version)?;
                self.query_at(site, &slot)
            }
            _ => Err(ToolFault::Line),
        }
    }

    fn query_at(&self, site: SiteNo, slot: &Slot) -> Result<Result<Reply, SiteFault>, ToolFault> {
        match self.places.get(place_of(site)) {
            Some(place) => place.query(slot),
            None => Err(ToolFault::Line),
        }
    }

    /// Sets the fuse of a site's cell.
    pub(crate) fn set_fuse(&mut self, words: &[&str]) -> Result<(), ToolFault> {
        match words {
            [site, fuse @ ..] => {
                let (site, fuse) = (site_of(site)?, fuse_of(fuse)?);
                let place = self.places.get_mut(place_of(site)).ok_or(ToolFault::Line)?;
                place.set_fuse(fuse);
                Ok(())
            }
            _ => Err(ToolFault::Line),
        }
    }

    /// Closes a site, and says what a read of its cell gives.
    pub(crate) fn close(&mut self, words: &[&str], output: &mut Output) -> Result<(), ToolFault> {
        let site = only_site_of(words)?;
        let place = self.places.get_mut(place_of(site)).ok_or(ToolFault::Line)?;
        place.close();
        output.cell(place.bytes())
    }

    /// A site stops, and its device starts again.
    pub(crate) fn crash(&mut self, words: &[&str]) -> Result<(), ToolFault> {
        let site = only_site_of(words)?;
        let place = self.places.get_mut(place_of(site)).ok_or(ToolFault::Line)?;
        place.crash();
        Ok(())
    }

    /// Opens a site over its cell.
    pub(crate) fn open(&mut self, words: &[&str], output: &mut Output) -> Result<(), ToolFault> {
        let site = only_site_of(words)?;
        let members = self.members.ok_or(ToolFault::Line)?;
        let place = self.places.get_mut(place_of(site)).ok_or(ToolFault::Line)?;
        let opened = place.open(self.alloc, members, site);
        output.opened(opened, place.count())
    }
}

/// Opens a site of the new federation.
fn open_new(
    alloc: Global,
    place: &mut Place,
    members: Members,
    site: SiteNo,
) -> Result<(), ToolFault> {
    match place.open(alloc, members, site) {
        Ok(()) => Ok(()),
        Err(_) => Err(ToolFault::Wrong),
    }
}

/// Calls the site of this number, if it is open.
fn call_at(
    alloc: Global,
    places: &mut Vec<Place>,
    site: SiteNo,
    call: &Call,
) -> Result<Answer, Failure> {
    match places.get_mut(place_of(site)) {
        Some(place) => place.call(alloc, call),
        None => Err(Failure::Faulty(ToolFault::Line)),
    }
}

fn place_of(site: SiteNo) -> usize {
    usize::from(site.number()).saturating_sub(1)
}

/// The site that is the only word.
fn only_site_of(words: &[&str]) -> Result<SiteNo, ToolFault> {
    match words {
        [site] => site_of(site),
        _ => Err(ToolFault::Line),
    }
}
