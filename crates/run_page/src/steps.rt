//! The steps of a run, in JavaScript.

/// What is on record and under way after so many events. tests/steps runs it by node.
pub(crate) const STEPS: &str = "'use strict';
// What the sites have on record, and where each datagram is, after some of the run's events.
// Nothing here knows of the page.

// Whether one ballot, a round and a site, is below another. None is below all.
function isBelow(one, other) {
  return !one || one[0] < other[0] || (one[0] === other[0] && one[1] < other[1]);
}

// Nothing is on record for a version.
function blank() {
  return { deposit: 0, round: 0, promised: null, vote: null, knows: 0 };
}

// Adds a record: the first deposit counts, the first known bag, and the highest ballots.
function keep(entry, record) {
  const ballot = record.ballot;
  if (record.kind === 'deposit' && !entry.deposit) entry.deposit = record.bag;
  if (record.kind === 'known' && !entry.knows) entry.knows = record.bag;
  if (record.kind === 'round') entry.round = Math.max(entry.round, record.round);
  if (record.kind === 'promise' || record.kind === 'vote') {
    if (isBelow(entry.promised, ballot)) entry.promised = ballot;
  }
  if (record.kind === 'vote' && (!entry.vote || isBelow(entry.vote.ballot, ballot))) {
    entry.vote = { ballot: ballot, bag: record.bag };
  }
}

// Before the first event.
function opening(run) {
  const site = () => ({ mode: 'up', records: 0, versions: run.versions.map(blank) });
  return { sites: run.weights.map(site), passages: [], lines: [] };
}

// Goes on by an event. A datagram that comes to a site that is down is lost, unless it has arrived
// before; it may arrive later all the same.
function follow(state, event) {
  const site = state.sites[event.site - 1];
  if (event.mode) site.mode = event.mode;
  if (event.record) {
    site.records += 1;
    keep(site.versions[event.record.version], event.record);
  }
  if (event.arrives) state.passages[event.arrives - 1] = 'arrived';
  if (event.lost && state.passages[event.lost - 1] === 'under way') {
    state.passages[event.lost - 1] = 'lost';
  }
  for (let sent = 0; sent < event.sends; sent += 1) state.passages.push('under way');
  if (event.prints) state.lines.push(event.prints);
}

// After so many events.
function stateAfter(run, count) {
  const state = opening(run);
  for (const event of run.events.slice(0, count)) follow(state, event);
  return state;
}
";
