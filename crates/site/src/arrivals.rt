//! What a site does with a message of a member.

ghost use Rattle.std.specs.Prelude.{ℕ, ◌≡◌, ◌↔◌, true, false, [], None, Some, map};
ghost use Rattle.std.specs.Prelude.{IfOk, IfErr, IsErrOf, IsOk};
ghost use Rattle.fed_types.specs.Quorums.{quorums_of};
ghost use Rattle.fed_types.specs.Ballots.{BallotNumber};
ghost use Rattle.records.specs.declared.entry.Entry.TheVariants as entries;
ghost use Rattle.dgram.specs.declared.body.Body.TheVariants as bodies;
ghost use Rattle.dgram.specs.Decoded.{message_of};
ghost use Rattle.dgram.specs.Encoding.{body_from};
ghost use Rattle.proposer.specs.VolatileStates.{VolatileState};
ghost use Rattle.site.specs.Answered.{IsAnswered, SaysWhatIsKnown};
ghost use Rattle.site.specs.Arrivals.{answer_body, addressees, is_member, on_arrival};
ghost use Rattle.site.specs.Calls.{Arrives};
ghost use Rattle.site.specs.Datagrams.{handed_out, datagram};
ghost use Rattle.site.specs.Effects.{record_of, to_each};
ghost use Rattle.site.specs.Sites.{Represents, effect};
ghost use Rattle.site.specs.declared.answer.Line.TheVariants as site_lines;
ghost use Rattle.site.specs.inner.Concluded.{Concludes, HearsBody, Issues, all_datagrams};

use crate::answer::{Answer, Line, Outgoing};
use crate::fault::SiteFault;
use crate::member_site::{Site, dropped, quiet};
use acceptor::{Decision, Response};
use cell_device::Cell;
use dgram::{Body, DgramFault, Message, decode};
use fed_types::{BagId, Ballot, SiteNo, Slot, Vote};
use records::{Entry, Record};
use std::alloc::AllocError;

impl<C: Cell> Site<C> {
    /// A datagram arrives. Bytes that are no message of the federation take no memory.
    pub fn arrive(&mut self, bytes: &[u8]) -> Result<Answer, SiteFault>
        ensures answer { self.old.book.needs_opening ≡ false → (volatile : VolatileState)
            → Represents self.old volatile
            → IsAnswered C.device self.old self.new volatile
            (effect self.old volatile
            (Arrives (message_of self.old.book.owner.members.federation bytes.now))) result }
        ensures reported { self.old.book.needs_opening ≡ false → IfOk result
            (λ a. SaysWhatIsKnown a.line self.new.book.records) }
        ensures no_message { self.old.book.needs_opening ≡ false
            → message_of self.old.book.owner.members.federation bytes.now ≡ None → IsOk result }
        ensures needs_open { IsErrOf result SiteFault.NeedsOpen
            ↔ (self.old.book.needs_opening ≡ true) }
        ensures untouched { self.old.book.needs_opening ≡ true → self.new ≡ self.old }
    {
        if self.book.needs_opening() {
            return Err(SiteFault::NeedsOpen);
        }
        match self.read(bytes)? {
            Some(message) => self.on_message(message),
            None => Ok(dropped(self.alloc)),
        }
    }

    /// Like `arrive`, for a datagram of the federation that was decoded already, to this message.
    pub fn arrive_message(&mut self, message: Message) -> Result<Answer, SiteFault>
        ensures answer { self.old.book.needs_opening ≡ false → (volatile : VolatileState)
            → Represents self.old volatile
            → IsAnswered C.device self.old self.new volatile
            (effect self.old volatile (Arrives (Some message))) result }
        ensures reported { self.old.book.needs_opening ≡ false → IfOk result
            (λ a. SaysWhatIsKnown a.line self.new.book.records) }
        ensures needs_open { IsErrOf result SiteFault.NeedsOpen
            ↔ (self.old.book.needs_opening ≡ true) }
        ensures untouched { self.old.book.needs_opening ≡ true → self.new ≡ self.old }
    {
        if !self.book.needs_opening() {
            return self.on_message(message);
        }
        Err(SiteFault::NeedsOpen)
    }

    // The message that the bytes are, if they are one of the federation.
    fn read(&self, bytes: &[u8]) -> Result<Option<Message>, SiteFault>
        ensures message { IfOk result (λ m. m
            ≡ message_of self.now.book.owner.members.federation bytes.now) }
        ensures memory { IfErr result (λ fault. fault ≡ SiteFault.Memory) }
        ensures no_message { message_of self.now.book.owner.members.federation bytes.now ≡ None
            → IsOk result }
    {
        match decode(self.alloc, self.members().federation(), bytes) {
            Ok(message) => Ok(Some(message)),
            Err(DgramFault::Memory) => Err(SiteFault::Memory),
            Err(DgramFault::NotOurs | DgramFault::Malformed) => Ok(None),
        }
    }

    // What doesn't come from a member is dropped.
    fn on_message(&mut self, message: Message) -> Result<Answer, SiteFault>
        requires { self.old.book.needs_opening ≡ false }
        ensures answer { (volatile : VolatileState) → Represents self.old volatile
            → IsAnswered C.device self.old self.new volatile
            (on_arrival (quorums_of self.old.book.owner.members) self.old.book.owner.site
            self.old.book.records volatile (Some message)) result }
        ensures fault { ¬ IsErrOf result SiteFault.NeedsOpen }
    {
        if self.is_from_member(&message) {
            self.on_body(message)
        } else {
            Ok(dropped(self.alloc))
        }
    }

    fn is_from_member(&self, message: &Message) -> bool
        ensures { result ≡ is_member (quorums_of self.now.book.owner.members)
            (body_from message.now.body) }
    {
        match message.from() {
            Some(from) => self.members().has(from),
            None => false,
        }
    }

    // Hears a message of a member.
    fn on_body(&mut self, message: Message) -> Result<Answer, SiteFault>
        requires { self.old.book.needs_opening ≡ false }
        ensures { HearsBody C.device self.old self.new message.slot message.body result }
    {
        let Message { slot, body } = message;
        match body {
            Body::Prepare { ballot } => self.on_prepare(slot, ballot),
            Body::Accept { vote } => self.on_accept(slot, vote),
            Body::Promise {
                from,
                ballot,
                prior,
            } => self.on_promise(slot, from, ballot, prior),
            Body::Accepted { from, vote } => self.on_accepted(slot, from, vote),
            Body::Known { bag, .. } => self.on_known(slot, bag),
            Body::Refused { standing, .. } => self.on_refused(slot, standing),
            Body::Ask { from } => self.answer_ask(slot, from),
            Body::Deposit { .. }
            | Body::Query
            | Body::Recover
            | Body::DepositReply { .. }
            | Body::QueryReply { .. } => Ok(dropped(self.alloc)),
        }
    }

    fn on_prepare(&mut self, slot: Slot, ballot: Ballot) -> Result<Answer, SiteFault>
        requires { self.old.book.needs_opening ≡ false }
        ensures { HearsBody C.device self.old self.new slot (bodies.Prepare ballot) result }
    {
        let decision = self.tables.prepare(&slot, ballot);
        self.decide(slot, ballot.site(), decision)
    }

    fn on_accept(&mut self, slot: Slot, vote: Vote) -> Result<Answer, SiteFault>
        requires { self.old.book.needs_opening ≡ false }
        ensures { HearsBody C.device self.old self.new slot (bodies.Accept vote) result }
    {
        let asker = vote.ballot.site();
        let decision = self.tables.accept(&slot, vote);
        self.decide(slot, asker, decision)
    }

    // Commits what the acceptor has decided, and sends its answer.
    fn decide(&mut self, slot: Slot, asker: SiteNo, decision: Decision) -> Result<Answer, SiteFault>
        requires { self.old.book.needs_opening ≡ false }
        ensures { Concludes C.device self.old self.new (record_of slot decision.entry) None
            (map (datagram self.old.book.owner.members.federation)
            (to_each slot (answer_body self.old.book.owner.site decision.answer)
            (addressees (quorums_of self.old.book.owner.members) asker decision.answer))) result }
    {
        let Decision { entry, answer } = decision;
        let message = Message {
            slot,
            body: body_of(self.number(), &answer),
        };
        let sends = self.send_response(&message, asker, &answer)?;
        let Message { slot, .. } = message;
        let line = None;
        match entry {
            Some(body) => self.commit_and_answer(Record { slot, body }, Answer { line, sends }),
            None => Ok(Answer { line, sends }),
        }
    }

    // A vote is sent to all members, anything else to the site that asked.
    fn send_response(
        &self,
        message: &Message,
        asker: SiteNo,
        answer: &Response,
    ) -> Result<Vec<Outgoing>, AllocError>
        ensures { IfOk result (λ sends. map handed_out sends.items
            ≡ map (datagram self.now.book.owner.members.federation)
            (to_each message.now.slot message.now.body
            (addressees (quorums_of self.now.book.owner.members) asker answer.now))) }
    {
        match *answer {
            Response::Accepted(_) => self.send_to_all(message),
            Response::Promised(..) | Response::Refused { .. } => self.send(message, asker),
        }
    }

    fn on_promise(
        &mut self,
        slot: Slot,
        from: SiteNo,
        ballot: Ballot,
        prior: Option<Vote>,
    ) -> Result<Answer, SiteFault>
        ensures { HearsBody C.device self.old self.new slot (bodies.Promise from ballot prior)
            result }
    {
        match self.tables.promise(from, &slot, ballot, prior) {
            Some(bag) => self.ask_for_votes(slot, Vote { ballot, bag }),
            None => Ok(quiet(self.alloc)),
        }
    }

    // Sends the proposal that became ready to all members. The promise that made it so is heard
    // with that.
    fn ask_for_votes(&mut self, slot: Slot, vote: Vote) -> Result<Answer, SiteFault>
        ensures { Issues self.old self.new slot
            (all_datagrams self.old slot (bodies.Accept vote)) result }
    {
        let message = Message {
            slot,
            body: Body::Accept { vote },
        };
        let sends = self.send_to_all(&message)?;
        self.tables.issued(&message.slot);
        Ok(Answer { line: None, sends })
    }

    fn on_accepted(&mut self, slot: Slot, from: SiteNo, vote: Vote) -> Result<Answer, SiteFault>
        requires { self.old.book.needs_opening ≡ false }
        ensures { HearsBody C.device self.old self.new slot (bodies.Accepted from vote) result }
    {
        match self.tables.accepted(from, &slot, vote)? {
            Some(bag) => self.learn(slot, bag),
            None => Ok(quiet(self.alloc)),
        }
    }

    fn on_known(&mut self, slot: Slot, bag: BagId) -> Result<Answer, SiteFault>
        requires { self.old.book.needs_opening ≡ false }
        ensures { (from : ℕ)
            → HearsBody C.device self.old self.new slot (bodies.Known from bag) result }
    {
        match self.tables.told(&slot, bag) {
            Some(bag) => self.learn(slot, bag),
            None => Ok(quiet(self.alloc)),
        }
    }

    // Records a bag that was learned, and reports it.
    fn learn(&mut self, slot: Slot, bag: BagId) -> Result<Answer, SiteFault>
        requires { self.old.book.needs_opening ≡ false }
        ensures { Concludes C.device self.old self.new (record_of slot (Some (entries.Known bag)))
            (Some (site_lines.Known slot bag)) [] result }
    {
        let line = Some(Line::Known(slot.copy(self.alloc)?, bag));
        let sends = Vec::new(self.alloc);
        let new = Record {
            slot,
            body: Entry::Known(bag),
        };
        self.commit_and_answer(new, Answer { line, sends })
    }

    fn on_refused(&mut self, slot: Slot, standing: Ballot) -> Result<Answer, SiteFault>
        ensures { (from : ℕ) (asked : BallotNumber) → HearsBody C.device self.old self.new slot
            (bodies.Refused from asked standing) result }
    {
        self.tables.refused(&slot, standing)?;
        Ok(quiet(self.alloc))
    }

    // Sends the known bag to the site that asks for it.
    fn answer_ask(&self, slot: Slot, asker: SiteNo) -> Result<Answer, SiteFault>
        ensures { HearsBody C.device self.now self.now slot (bodies.Ask asker) result }
    {
        match self.tables.known(&slot) {
            Some(bag) => {
                let from = self.number();
                let body = Body::Known { from, bag };
                let sends = self.send(&Message { slot, body }, asker)?;
                Ok(Answer { line: None, sends })
            }
            None => Ok(quiet(self.alloc)),
        }
    }
}

// An acceptor's answer as a message of its site.
fn body_of(from: SiteNo, answer: &Response) -> Body
    ensures { result ≡ answer_body from answer.now }
{
    match *answer {
        Response::Promised(ballot, prior) => Body::Promise {
            from,
            ballot,
            prior,
        },
        Response::Accepted(vote) => Body::Accepted { from, vote },
        Response::Refused { asked, standing } => Body::Refused {
            from,
            asked,
            standing,
        },
    }
}
