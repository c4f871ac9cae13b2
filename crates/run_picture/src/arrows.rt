//! An arrow for each datagram that was sent.

use crate::canvas::Canvas;
use crate::labels::message_of;
use crate::layout::BEYOND;
use crate::marks::CROSS;
use crate::paint::{PLAIN, of_datagram};
use crate::seen_words::{push_box, push_seen};
use crate::shape::{push_shape, push_words};
use crate::sides::{Side, beside, side_to};
use run_story::{Datagram, Deed, Passage};
use std::alloc::AllocError;

/// How far an arrow that breaks off goes.
const BROKEN: usize = 62;
/// How far from a column an arrow ends.
const GAP: usize = 7;

const ONCE: &str = "<path class='a ";

const AGAIN: &str = "<path class='a again ";

const LINE: &str = "s$c' marker-end='url(#h$c)' d='M$0 $1L$2 $3'/>\n";
// The path of an arrow from a site to itself: to the right, and back.
const LOOP: &str = "s$c' marker-end='url(#h$c)' d='M$0 $1C$4 $1 $4 $3 $2 $3'/>\n";

const STUB: &str = "<path class='a b s$c' d='M$0 $1L$2 $3'/>";

impl Canvas<'_> {
    /// Appends an arrow for each datagram.
    pub(crate) fn push_arrows(&self, text: &mut String) -> Result<(), AllocError> {
        for (before, passage) in self.story.passages.iter().enumerate() {
            let number = before.saturating_add(1);
            if let Some(datagram) = self.story.datagram(number) {
                self.push_arrow(text, number, datagram, *passage)?;
            }
        }
        Ok(())
    }

    /// Appends a dotted arrow for each time that a datagram arrived again.
    pub(crate) fn push_repeats(&self, text: &mut String) -> Result<(), AllocError> {
        for (place, event) in self.story.events.iter().enumerate() {
            if let Deed::Deliver = event.deed {
                self.push_repeat(text, event.number, place)?;
            }
        }
        Ok(())
    }

    fn push_repeat(
        &self,
        text: &mut String,
        number: usize,
        place: usize,
    ) -> Result<(), AllocError> {
        let first = match self.story.passages.get(number.wrapping_sub(1)) {
            Some(Passage::ToNobody(first) | Passage::Arrived(first)) => *first,
            _ => place,
        };
        match self.story.datagram(number) {
            Some(datagram) if first != place && self.layout.row(place) != 0 => {
                self.push_path(text, datagram, place, AGAIN)
            }
            _ => Ok(()),
        }
    }

    fn push_arrow(
        &self,
        text: &mut String,
        number: usize,
        datagram: &Datagram,
        passage: Passage,
    ) -> Result<(), AllocError> {
        write!(text, "<g class='datagram' id='datagram-{number}'><title>")?;
        self.push_words(text, number, datagram)?;
        let sites = [usize::from(datagram.from), usize::from(datagram.to)];
        push_shape(text, ": site $0 to site $1</title>\n", PLAIN, &sites)?;
        match passage {
            Passage::Never => self.push_broken(text, number, datagram)?,
            Passage::ToNobody(place) => self.push_lost(text, datagram, place)?,
            Passage::Arrived(place) => self.push_path(text, datagram, place, ONCE)?,
        }
        text.push_str("</g>\n")
    }

    // What a datagram says.
    fn push_words(
        &self,
        text: &mut String,
        number: usize,
        datagram: &Datagram,
    ) -> Result<(), AllocError> {
        let words = message_of(self.alloc, self.story, number, datagram)?;
        push_words(text, words.as_str())
    }

    // An arrow from where a datagram was sent to the event at a place.
    fn push_path(
        &self,
        text: &mut String,
        datagram: &Datagram,
        place: usize,
        class: &str,
    ) -> Result<(), AllocError> {
        let x = self.layout.column(datagram.from);
        let y = self.layout.row(datagram.event);
        let end = self.layout.row(place);
        let side = side_to(datagram.to, datagram.from);
        let to = beside(self.layout.column(datagram.to), GAP, side);
        text.push_str(class)?;
        let shape = if datagram.from == datagram.to {
            LOOP
        } else {
            LINE
        };
        let far = (end.saturating_sub(y) / 6).min(44).saturating_add(22);
        let bend = x.saturating_add(far);
        push_shape(text, shape, of_datagram(datagram), &[x, y, to, end, bend])
    }

    // An arrow that ends in a cross, where the site is down.
    fn push_lost(
        &self,
        text: &mut String,
        datagram: &Datagram,
        place: usize,
    ) -> Result<(), AllocError> {
        self.push_path(text, datagram, place, ONCE)?;
        let middle = [self.layout.column(datagram.to), self.layout.row(place)];
        push_shape(text, CROSS, of_datagram(datagram), &middle)
    }

    // An arrow that breaks off.
    fn push_broken(
        &self,
        text: &mut String,
        number: usize,
        datagram: &Datagram,
    ) -> Result<(), AllocError> {
        let x = self.layout.column(datagram.from);
        let y = self.layout.row(datagram.event);
        let to = beside(x, BROKEN, side_to(datagram.from, datagram.to));
        let end = self.layout.stub(number);
        push_shape(text, STUB, of_datagram(datagram), &[x, y, to, end])?;
        push_shape(text, CROSS, of_datagram(datagram), &[to, end])
    }

    /// Appends the words of the datagrams that were never delivered, where they break off.
    pub(crate) fn push_stub_words(&self, text: &mut String) -> Result<(), AllocError> {
        for (before, passage) in self.story.passages.iter().enumerate() {
            let number = before.saturating_add(1);
            if let (Passage::Never, Some(datagram)) = (*passage, self.story.datagram(number)) {
                self.push_stub_label(text, number, datagram)?;
            }
        }
        Ok(())
    }

    fn push_stub_label(
        &self,
        text: &mut String,
        number: usize,
        datagram: &Datagram,
    ) -> Result<(), AllocError> {
        let side = side_to(datagram.from, datagram.to);
        let shape = match side {
            Side::Left => "<text class='l f$c' x='$0' y='$1' dy='4'>",
            Side::Right => "<text class='f$c' x='$0' y='$1' dy='4'>",
        };
        let x = beside(self.layout.column(datagram.from), BEYOND, side);
        let end = self.layout.stub(number);
        let words = message_of(self.alloc, self.story, number, datagram)?;
        push_box(text, words.as_str(), x, end.saturating_add(4), side)?;
        push_shape(text, shape, of_datagram(datagram), &[x, end])?;
        push_seen(text, words.as_str())?;
        text.push_str("</text>\n")
    }
}
