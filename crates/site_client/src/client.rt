//! A client of a site: what it asks, and what it writes of the answer.

ghost use Rattle.std.specs.Prelude.{◌≡◌, IfOk, Some};
ghost use Rattle.site_client.specs.Replies.{question_of};
ghost use Rattle.site_client.specs.Exchanges.{IsAskedForBag, IsAskedAbout};
ghost use Rattle.site_client.specs.Answers.{IsSent, IsWritten, outcome_of};
ghost use Rattle.site_client.specs.inner.Written.{outcome_to, outcome_in, IsAnswered};

use crate::client_answer::{deposit_text, query_text};
use crate::exchange::{ask, ask_again, datagram};
use crate::reply::{ClientReply, Wanted, query_in, wanted_about, wanted_for};
use crate::request::Request;
use dgram::{FolderPath, QueryAnswer};
use outcomes::{ProgramFault, ProgramOutput, write_output};
use std::alloc::{AllocError, Global};
use std::io::Write;
use udp_site::Port;

/// Sends a deposit of the folder of this path to a site, or without a path a query, and writes the
/// answer as one line: `registered ..` or `reply ..` with status 0, `refused N CODE` with status 1.
/// It is the first datagram that comes from the site's port and is the reply of this site for this
/// slot. Where nothing came in one turn, the port failed or sixteen other datagrams came, from
/// whichever port, the line is `no answer`, with status 1. Where memory runs out, it is `memory`,
/// with status 1.
pub fn send_on<P: Port, W: Write>(
    alloc: Global,
    port: &mut P,
    request: &Request<'_>,
    path: Option<FolderPath>,
    output: &mut W,
) -> Result<u8, ProgramFault>
    ensures { IsSent (question_of request.now) path (P.traffic port.old) (P.traffic port.new)
        (W.contents output.old) (W.contents output.new) result }
{
    write_reply(output, answer(alloc, port, request, path))
}

/// Writes this answer, or that there is none or no memory for it.
pub(crate) fn write_reply<W: Write>(
    output: &mut W,
    answer: Result<Option<ProgramOutput>, AllocError>,
) -> Result<u8, ProgramFault>
    ensures { IsWritten (W.contents output.old) (W.contents output.new) result
        (outcome_to answer) }
{
    match answer {
        Ok(Some(answer)) => write_output(output, answer.status, answer.text.as_str()),
        Ok(None) => write_output(output, 1, "no answer\n"),
        Err(AllocError) => write_output(output, 1, "memory\n"),
    }
}

// The answer, if there is one.
fn answer<P: Port>(
    alloc: Global,
    port: &mut P,
    request: &Request<'_>,
    path: Option<FolderPath>,
) -> Result<Option<ProgramOutput>, AllocError>
    ensures { IsAnswered (question_of request.now) path
        (P.traffic port.old) (P.traffic port.new) result }
{
    let wanted = wanted_for(&path);
    let bytes = datagram(alloc, request, path)?;
    match ask(alloc, port, request, wanted, bytes.as_slice())? {
        Some(reply) => Ok(Some(answer_of(alloc, request, reply)?)),
        None => Ok(None),
    }
}

/// What a site replies to a query for the slot's bag, if it replies. The port may have been used.
pub fn ask_for_bag<P: Port>(
    alloc: Global,
    port: &mut P,
    request: &Request<'_>,
) -> Result<Option<QueryAnswer>, AllocError>
    ensures { IsAskedForBag (question_of request.now)
        (P.traffic port.old) (P.traffic port.new) result }
{
    let bytes = datagram(alloc, request, None)?;
    let wanted = Wanted::ToQuery;
    let reply = ask_again(alloc, port, request, wanted, bytes.as_slice())?;
    Ok(query_in(reply))
}

/// What a site replies to a deposit of the folder of this path, if it replies; or without a path to
/// a query, or to an earlier deposit. The port may have been used.
pub fn ask_about<P: Port>(
    alloc: Global,
    port: &mut P,
    request: &Request<'_>,
    path: Option<FolderPath>,
) -> Result<Option<ClientReply>, AllocError>
    ensures { IsAskedAbout (question_of request.now) path
        (P.traffic port.old) (P.traffic port.new) result }
{
    let wanted = wanted_about(&path);
    let bytes = datagram(alloc, request, path)?;
    ask_again(alloc, port, request, wanted, bytes.as_slice())
}

/// What a reply says.
pub(crate) fn answer_of(
    alloc: Global,
    request: &Request<'_>,
    reply: ClientReply,
) -> Result<ProgramOutput, AllocError>
    ensures { IfOk result
        (λ answer. outcome_in answer ≡ outcome_of (question_of request.now) (Some reply)) }
{
    let slot = request.slot.copy(alloc)?;
    match reply {
        ClientReply::ToDeposit(answer) => deposit_text(alloc, request.to, slot, answer),
        ClientReply::ToQuery(answer) => query_text(alloc, request.to, slot, answer),
    }
}
