use crate::answer_text::{
    push_answer, push_cell, push_opened, push_refusal, push_reply, push_unopened,
};
use crate::call::Failure;
use crate::fault::ToolFault;
use book::OpenFault;
use site::{Answer, Outgoing, Reply, SiteFault};
use std::alloc::{AllocError, Global};

/// What a script has printed, and the datagrams that were sent in its federation.
#[derive(Drop)]
pub(crate) struct Output {
    alloc: Global,
    text: String,
    sent: Vec<Outgoing>,
}

impl Output {
    pub(crate) fn new(alloc: Global) -> Output {
        Output {
            alloc,
            text: String::new(alloc),
            sent: Vec::new(alloc),
        }
    }

    /// What was printed.
    pub(crate) fn into_text(self) -> String {
        let Output { text, sent, .. } = self;
        drop(sent);
        text
    }

    /// The datagrams that were sent.
    pub(crate) fn sent(&self) -> &[Outgoing] {
        self.sent.as_slice()
    }

    /// Forgets the datagrams, for another federation.
    pub(crate) fn begin(&mut self) {
        self.sent.clear();
    }

    /// What a call of a site answers.
    pub(crate) fn answer(&mut self, answer: Result<Answer, Failure>) -> Result<(), ToolFault> {
        match answer {
            Ok(answer) => self.hand_out(answer),
            Err(Failure::Refused(fault)) => self.refuse(fault),
            Err(Failure::Faulty(fault)) => Err(fault),
        }
    }

    fn hand_out(&mut self, answer: Answer) -> Result<(), ToolFault> {
        let mut answer = answer;
        let kept = self.keep(&mut answer);
        drop(answer);
        match kept {
            Ok(()) => Ok(()),
            Err(_) => Err(ToolFault::Memory),
        }
    }

    /// Keeps the datagrams of an answer, and says what it is.
    fn keep(&mut self, answer: &mut Answer) -> Result<(), AllocError> {
        push_answer(self.alloc, &mut self.text, answer, self.sent.len())?;
        self.sent.append(&mut answer.sends)
    }

    fn refuse(&mut self, fault: SiteFault) -> Result<(), ToolFault> {
        Ok(push_refusal(self.alloc, &mut self.text, fault)?)
    }

    /// What a site replies to a query.
    pub(crate) fn reply(
        &mut self,
        reply: Result<Result<Reply, SiteFault>, ToolFault>,
    ) -> Result<(), ToolFault> {
        Ok(push_reply(self.alloc, &mut self.text, reply?)?)
    }

    /// How many records an opened site has, or why its cell is refused.
    pub(crate) fn opened(
        &mut self,
        opened: Result<(), OpenFault>,
        count: usize,
    ) -> Result<(), ToolFault> {
        match opened {
            Ok(()) => Ok(push_opened(&mut self.text, count)?),
            Err(OpenFault::Memory) => Err(ToolFault::Wrong),
            Err(fault) => Ok(push_unopened(&mut self.text, fault.number())?),
        }
    }

    /// The bytes of a closed site's cell.
    pub(crate) fn cell(&mut self, bytes: &[u8]) -> Result<(), ToolFault> {
        Ok(push_cell(self.alloc, &mut self.text, bytes)?)
    }
}
