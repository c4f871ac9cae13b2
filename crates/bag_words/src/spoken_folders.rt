//! Folders for which a check says in words what it finds.

use crate::folder_words::{push_read_words, push_unread_words};
use crate::list_kind::{Names, Source};
use bag_check::BagFault;
use bag_folders::Folders;
use bag_tree::{Facts, TreeFault};
use code_words::push_line_name;
use std::alloc::AllocError;
use std::io::IsTerminal;

/// Which words are wanted.
#[derive(Clone, Copy, Debug, PartialEq, Eq)]
pub enum Wanted {
    /// None.
    Nothing,
    /// Of what keeps a bag from being complete.
    Gaps,
    /// Of all that is wrong.
    All,
}

/// Folders that say on standard error what a check of each finds, if that is asked for. They do so
/// for a folder that was read when the next one is read, or at the end, so that its words come
/// after its line. Otherwise it delegates to the folders.
#[derive(Drop)]
pub struct SpokenFolders<'a, F> {
    folders: F,
    words: Words<'a>,
}

/// The words on the folder that was read last.
#[derive(Drop)]
struct Words<'a> {
    rt: &'a HostRuntime,
    wanted: Wanted,
    /// Whether each line has the folder before it.
    are_named: bool,
    folder: String,
    text: String,
    source: Source,
}

impl<'a, F: Folders> SpokenFolders<'a, F> {
    /// These folders, whose names come from there, with words where they are wanted, and the folder
    /// before each line where these are named.
    pub fn new(
        rt: &'a HostRuntime,
        wanted: Wanted,
        are_named: bool,
        names: Names,
        folders: F,
    ) -> SpokenFolders<'a, F> {
        let words = Words {
            rt,
            wanted,
            are_named,
            folder: String::new(rt.alloc()),
            text: String::new(rt.alloc()),
            source: Source { names, kind: None },
        };
        SpokenFolders { folders, words }
    }

    /// The folders.
    pub fn folders(&self) -> &F {
        &self.folders
    }

    /// Says what is left to say.
    pub fn say(&mut self) {
        self.words.say();
    }
}

impl<F: Folders> Folders for SpokenFolders<'_, F> {
    ghost gives = { λ f. F.gives f.folders };

    ghost fails_at = { λ f. F.fails_at f.folders };

    fn read(&mut self, path: &str) -> Result<Facts, TreeFault> {
        self.words.say();
        match self.folders.read(path) {
            Ok(facts) => {
                self.words.note_read(path, &facts);
                Ok(facts)
            }
            Err(fault) => {
                self.words.clear_line();
                self.words.note_unread(path, fault);
                Err(fault)
            }
        }
    }

    fn refused(&mut self, fault: BagFault) {
        self.folders.refused(fault);
    }

    fn failed_at(&self) -> Option<&str> {
        self.folders.failed_at()
    }
}

impl Words<'_> {
    // Notes what is to be said of a folder that was read. Without memory it notes less.
    fn note_read(&mut self, path: &str, facts: &Facts) {
        if self.wanted != Wanted::Nothing && self.folder.push_str(path).is_ok() {
            let _ = push_read_words(self.rt, &mut self.text, path, facts, self.wanted);
        }
    }

    // Notes what is to be said of one that can't be read. Where the list is none, that is said
    // elsewhere.
    fn note_unread(&mut self, path: &str, fault: TreeFault) {
        if self.source.names == Names::Mistaken {
            return;
        }
        if self.wanted != Wanted::Nothing && self.folder.push_str(path).is_ok() {
            let wanted = self.wanted;
            let source = &mut self.source;
            let _ = push_unread_words(self.rt, &mut self.text, path, fault, wanted, source);
        }
    }

    // Clears a line of a terminal that said how far the read was, which is over.
    fn clear_line(&self) {
        if self.rt.stderr().is_terminal() {
            let _ = self.rt.eprint("\r\x1b[K");
        }
    }

    // Says what was noted. If standard error can't be written, it says nothing.
    fn say(&mut self) {
        if self.are_named {
            let _ = self.say_named();
        } else {
            let _ = self.rt.eprint(self.text.as_str());
        }
        self.text.clear();
        self.folder.clear();
    }

    fn say_named(&self) -> Result<(), AllocError> {
        let mut name = String::new(self.rt.alloc());
        push_line_name(&mut name, self.folder.as_str())?;
        for line in self.text.as_str().lines() {
            let _ = eprintln!(self.rt; "{name}: {line}");
        }
        Ok(())
    }
}
