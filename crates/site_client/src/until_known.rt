//! A client that asks until a bag is known.

ghost use Rattle.std.specs.Prelude.{◌≡◌, ℕ, List, IfOk, Some, Option};
ghost use Rattle.std.specs.Option.{option_or};
ghost use Rattle.site_client.specs.Replies.{Question, question_of, datagram_to};
ghost use Rattle.site_client.specs.Repeats.{is_known, is_last, next_path, until_outcome};
ghost use Rattle.site_client.specs.Repeats.{IsSentUntilKnown, ends, wanted_until};
ghost use Rattle.site_client.specs.inner.Repeated.{AreQuestions, IsLastReply, IsLastAnswer};
ghost use Rattle.site_client.specs.inner.Written.{outcome_in};

use crate::client::{answer_of, write_reply};
use crate::exchange::{ask_again, datagram};
use crate::reply::{ClientReply, Wanted};
use crate::request::Request;
use dgram::{DepositAnswer, FolderPath, QueryAnswer};
use outcomes::{ProgramFault, ProgramOutput};
use std::alloc::{AllocError, Global};
use std::io::Write;
use std::thread;
use std::time::{Clock, Duration, Instant};
use udp_site::Port;

/// How many milliseconds it pauses after the first question.
const FIRST_PAUSE: u64 = 2;

/// How many at most.
const LONGEST_PAUSE: u64 = 1000;

/// Asks a site for a slot's bag until it is known, once at least and for so many seconds at most,
/// and writes the last answer that there was as one line: `reply .. known ..` with status 0, any
/// other with status 1. With a path the folder is deposited first, and again where the site then
/// knows nothing of it. A deposit that is refused ends it at once. After each question it pauses,
/// first for 2 ms, then for twice as long each time, and for a second at most. From the tenth
/// question on it asks a site to recover the slot after each: first the same site, and then the
/// others in turn. Where memory runs out the line is `memory`, with status 1.
pub fn send_until_known<P: Port, C: Clock, W: Write>(
    alloc: Global,
    clock: &C,
    port: &mut P,
    request: &Request<'_>,
    path: Option<FolderPath>,
    seconds: u32,
    output: &mut W,
) -> Result<u8, ProgramFault>
    ensures { IsSentUntilKnown (question_of request.now) path
        (P.traffic port.old) (P.traffic port.new)
        (W.contents output.old) (W.contents output.new) result }
{
    write_reply(
        output,
        last_answer(alloc, clock, port, request, path, seconds),
    )
}

// The last answer, if there is one.
fn last_answer<P: Port, C: Clock>(
    alloc: Global,
    clock: &C,
    port: &mut P,
    request: &Request<'_>,
    path: Option<FolderPath>,
    seconds: u32,
) -> Result<Option<ProgramOutput>, AllocError>
    ensures { IsLastAnswer (question_of request.now) path
        (P.traffic port.old) (P.traffic port.new) result }
{
    let wanted = wanted_until(&path);
    let questions = Questions::new(alloc, request, path)?;
    match last_reply(alloc, clock, port, request, wanted, &questions, seconds)? {
        Some(reply) => Ok(Some(answer_to(alloc, request, reply)?)),
        None => Ok(None),
    }
}

// The replies that count: without a path those to queries alone.
fn wanted_until(path: &Option<FolderPath>) -> Wanted
    ensures { result ≡ wanted_until path.now }
{
    match path {
        Some(_) => Wanted::Any,
        None => Wanted::ToQuery,
    }
}

// What a reply says, with the status 0 only where the bag is known.
fn answer_to(
    alloc: Global,
    request: &Request<'_>,
    reply: ClientReply,
) -> Result<ProgramOutput, AllocError>
    ensures { IfOk result
        (λ answer. outcome_in answer ≡ until_outcome (question_of request.now) (Some reply)) }
{
    let ProgramOutput { text, .. } = answer_of(alloc, request, reply)?;
    let status = if is_known(&reply) { 0 } else { 1 };
    Ok(ProgramOutput { status, text })
}

// The reply that says which bag is known or that a deposit is refused; or the last in this time.
fn last_reply<P: Port, C: Clock>(
    alloc: Global,
    clock: &C,
    port: &mut P,
    request: &Request<'_>,
    wanted: Wanted,
    questions: &Questions,
    seconds: u32,
) -> Result<Option<ClientReply>, AllocError>
    ensures { (path : Option (List ℕ)) → wanted ≡ wanted_until path
        → AreQuestions (question_of request.now) path questions.now
        → IsLastReply (question_of request.now) path
        (P.traffic port.old) (P.traffic port.new) result }
{
    let mut pauses = Pauses::new(clock, seconds);
    let mut last = None;
    let mut bytes = questions.first();
    let mut question = request.at(request.asked);
    for _count in 0..u32::MAX {
        let reply = ask_again(alloc, port, &question, wanted, bytes)?;
        last = or(reply, last);
        if ends(&reply) || !pauses.pause(clock) {
            return Ok(last);
        }
        bytes = questions.after(&reply);
        question = question.next();
    }
    Ok(last)
}

// The reply, or an earlier one.
fn or(reply: Option<ClientReply>, earlier: Option<ClientReply>) -> Option<ClientReply>
    ensures { result ≡ option_or reply earlier }
{
    match reply {
        Some(_) => reply,
        None => earlier,
    }
}

fn is_known(reply: &ClientReply) -> bool
    ensures { result ≡ is_known reply.now }
{
    matches!(reply, ClientReply::ToQuery(QueryAnswer::Known(_)))
}

// Whether nothing else is to be waited for.
fn ends(reply: &Option<ClientReply>) -> bool
    ensures { result ≡ ends reply.now }
{
    match reply {
        Some(reply) => is_last(reply),
        None => false,
    }
}

fn is_last(reply: &ClientReply) -> bool
    ensures { result ≡ is_last reply.now }
{
    match reply {
        ClientReply::ToDeposit(DepositAnswer::Registered(_)) => false,
        ClientReply::ToDeposit(_) => true,
        ClientReply::ToQuery(_) => is_known(reply),
    }
}

/// The datagrams that are sent.
#[derive(Drop)]
struct Questions {
    deposit: Option<Vec<u8>>,
    query: Vec<u8>,
}

impl Questions {
    ghost use Rattle.std.specs.Prelude.{◌≡◌, ℕ, List, IfOk, Option};
    ghost use Rattle.site_client.specs.Replies.{Question, question_of, datagram_to};
    ghost use Rattle.site_client.specs.Repeats.{next_path};
    ghost use Rattle.site_client.specs.inner.Repeated.{AreQuestions};

    fn new(
        alloc: Global,
        request: &Request<'_>,
        path: Option<FolderPath>,
    ) -> Result<Questions, AllocError>
        ensures { IfOk result (λ questions.
            AreQuestions (question_of request.now) path questions) }
    {
        let query = datagram(alloc, request, None)?;
        let deposit = match path {
            Some(path) => Some(datagram(alloc, request, Some(path))?),
            None => None,
        };
        Ok(Questions { deposit, query })
    }

    // The deposit, if there is one.
    fn first(&self) -> &[u8]
        ensures { (q : Question) (path : Option (List ℕ)) → AreQuestions q path self.now
            → result.now ≡ datagram_to q path }
    {
        match &self.deposit {
            Some(deposit) => deposit.as_slice(),
            None => self.query.as_slice(),
        }
    }

    // What is sent after this reply. A site that knows nothing hasn't got the deposit.
    fn after(&self, reply: &Option<ClientReply>) -> &[u8]
        ensures { (q : Question) (path : Option (List ℕ)) → AreQuestions q path self.now
            → result.now ≡ datagram_to q (next_path path reply.now) }
    {
        match reply {
            Some(ClientReply::ToQuery(QueryAnswer::Nothing)) => self.first(),
            _ => self.query.as_slice(),
        }
    }
}

/// The pauses between questions, and when they end.
#[derive(Drop)]
struct Pauses {
    /// When the first question was asked, if that could be read.
    start: Option<Instant>,
    most: Duration,
    millis: u64,
}

impl Pauses {
    fn new<C: Clock>(clock: &C, seconds: u32) -> Pauses {
        Pauses {
            start: Instant::now(clock).ok(),
            most: Duration::from_secs(u64::from(seconds)),
            millis: FIRST_PAUSE,
        }
    }

    // Pauses, and says whether there is time for one more question. There is none if the time can't
    // be read.
    fn pause<C: Clock>(&mut self, clock: &C) -> bool {
        let Some(Ok(elapsed)) = self.start.map(|start| start.elapsed(clock)) else {
            return false;
        };
        let left = self.most.saturating_sub(elapsed);
        if left.is_zero() {
            return false;
        }
        let pause = Duration::from_millis(self.millis).min(left);
        self.millis = self.millis.saturating_mul(2).min(LONGEST_PAUSE);
        thread::sleep(clock, pause);
        true
    }
}
