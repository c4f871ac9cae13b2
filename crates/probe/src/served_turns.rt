//! A site without other members serves in memory, while an allocation fails in a test. Each line of
//! its turns says what one of them brings, and lines that begin with `#` are skipped:
//!
//!     idle         nothing comes
//!     PORT HEX     a datagram comes from this port
//!
//! The site has port 5001, and the folder `x` has the bag without a file. What is printed are the
//! turns and datagrams in order, `turn` or `PORT HEX`; then `ended`, or why serving ended before;
//! and then the lines of the site.

use crate::example::{FEDERATION, site};
use crate::fault::Fault;
use crate::proposing_memory::mark;
use addresses::Address;
use bag_folders::MemoryFolders;
use bag_tree::{Tree, TreeFault};
use cell_device::MemoryCell;
use fed_types::Members;
use records::Owner;
use site::Site;
use std::alloc::Global;
use udp_site::{MemoryPort, PortMove, ServeFault, serve};

const SITE_PORT: u16 = 5001;

const DECLARATION: &str = "BagIt-Version: 1.0\nTag-File-Character-Encoding: UTF-8\n";

/// A site that serves, and what is around it.
#[derive(Drop)]
struct Bench {
    alloc: Global,
    site: Site<MemoryCell>,
    port: MemoryPort,
    folders: MemoryFolders,
    lines: Vec<u8>,
}

/// What a site does in these turns.
pub fn served_text(alloc: Global, turns: &str) -> Result<String, Fault> {
    let owner = Owner {
        members: Members::new(FEDERATION, 1)?,
        site: site()?,
    };
    match Site::open(alloc, MemoryCell::new(alloc, Vec::new(alloc)), owner) {
        Ok(site) => text_of(alloc, site, turns),
        Err((cell, fault)) => {
            drop(cell);
            Err(Fault::from(fault))
        }
    }
}

fn text_of(alloc: Global, site: Site<MemoryCell>, turns: &str) -> Result<String, Fault> {
    let mut bench = Bench {
        alloc,
        site,
        port: MemoryPort::new(alloc),
        folders: MemoryFolders::new(alloc),
        lines: Vec::new(alloc),
    };
    let text = bench.text(turns);
    drop(bench);
    text
}

impl Bench {
    /// What the site does, between two marks.
    fn text(&mut self, turns: &str) -> Result<String, Fault> {
        self.folders.add("x", empty_bag(self.alloc)?)?;
        let count = self.bring(turns)?;
        mark(self.alloc)?;
        let ended = self.serve(count);
        mark(self.alloc)?;
        let mut text = String::new(self.alloc);
        match self.push_text(&mut text, ended) {
            Ok(()) => Ok(text),
            Err(fault) => Err(fault),
        }
    }

    /// All these turns are to come. How many there are.
    fn bring(&mut self, turns: &str) -> Result<u32, Fault> {
        let mut count = 0u32;
        for line in turns.lines() {
            if !line.starts_with("#") {
                self.bring_one(line)?;
                count = count.saturating_add(1);
            }
        }
        Ok(count)
    }

    fn bring_one(&mut self, line: &str) -> Result<(), Fault> {
        match line.split_once(" ") {
            Some((from, digits)) => {
                let from = from.parse::<u16>().or(Err(Fault::Script))?;
                let bytes = hex::decode(self.alloc, digits)?;
                let from = Address::on_this_machine(from);
                Ok(self.port.bring(from, bytes.as_slice())?)
            }
            None if line == "idle" => Ok(self.port.idle()?),
            None => Err(Fault::Script),
        }
    }

    fn serve(&mut self, turns: u32) -> Result<(), ServeFault> {
        serve(
            self.alloc,
            &mut self.site,
            &mut self.port,
            &mut self.folders,
            &[Address::on_this_machine(SITE_PORT)],
            turns,
            &mut self.lines,
        )
    }

    /// Appends what was done, how it ended, and the lines.
    fn push_text(&self, text: &mut String, ended: Result<(), ServeFault>) -> Result<(), Fault> {
        for done in self.port.moves() {
            push_move(self.alloc, text, done)?;
        }
        text.push_str(word_of(ended))?;
        let lines = str::from_utf8(self.lines.as_slice()).or(Err(Fault::Wrong))?;
        Ok(text.push_str(lines)?)
    }
}

/// The bag without a file.
fn empty_bag(alloc: Global) -> Result<Tree, Fault> {
    let mut tree = Tree::new(alloc);
    match fill(&mut tree) {
        Ok(()) => Ok(tree),
        Err(_) => Err(Fault::Memory),
    }
}

fn fill(tree: &mut Tree) -> Result<(), TreeFault> {
    tree.add_folder();
    tree.add("bagit.txt", DECLARATION.as_bytes())?;
    tree.add("manifest-sha512.txt", "".as_bytes())
}

fn push_move(alloc: Global, text: &mut String, done: &PortMove) -> Result<(), Fault> {
    match done {
        PortMove::Took(_) => Ok(text.push_str("turn\n")?),
        PortMove::Handed(to, bytes) => {
            let digits = hex::encode(alloc, bytes)?;
            Ok(write!(text, "{} {digits}\n", to.port())?)
        }
        PortMove::Failed => Err(Fault::Wrong),
    }
}

fn word_of(ended: Result<(), ServeFault>) -> &'static str {
    match ended {
        Ok(()) => "ended\n",
        Err(ServeFault::Port) => "port\n",
        Err(ServeFault::Cell) => "cell\n",
        Err(ServeFault::Memory) => "memory\n",
        Err(ServeFault::Output) => "output\n",
    }
}
